// Verdicts and refusals: of texts, the duty before the rule, and both before the bench.
use crate::printed::{
    FORM, MARKED, RANGE, SEVEN, TWO_LETTERS, UNMARKED, lists, long, reports, tells,
};
use bench::BenchFault;
use fault::{ChartFault, TextFault};
use ranked::InstanceFault;
use report::{Refusal, Report, Side, decide_texts};
use std::process::Abort;
use std::test::Fail;
use verdict::{Kind, Verdict};

#[test]
fn verdicts(rt: HostRuntime) -> Result<(), Fail> {
    let heap = rt.alloc();
    reports(&rt, heap, MARKED, UNMARKED, "verdict nodes\nbreak 6\n")?;
    reports(&rt, heap, MARKED, MARKED, "verdict nodes\nkeep 3\n")?;
    reports(&rt, heap, SEVEN, MARKED, "verdict nodes\nkeep 3\n")?;
    let no_start = "letters\n1\nstate start mark\n0 . .\nfrom by to\n0 a 0\n";
    reports(&rt, heap, no_start, UNMARKED, "verdict nodes\nkeep 0\n")
}

// 5 comes before 6. The rule's text is refused even where the letters differ or it has more than 6 states.
#[test]
fn order(rt: HostRuntime) -> Result<(), Fail> {
    let heap = rt.alloc();
    let mut cut = String::from_str(heap, SEVEN)?;
    cut.push_str("0 a 7\n")?;
    let cases = [
        (RANGE, MARKED, "refused at place\n2 duty 2\n"),
        (FORM, RANGE, "refused at place\n1 duty 4\n"),
        ("", "", "refused at place\n1 duty 1\n"),
        (MARKED, RANGE, "refused at place\n2 rule 2\n"),
        (TWO_LETTERS, FORM, "refused at place\n1 rule 4\n"),
        (TWO_LETTERS, cut.as_str(), "refused at place\n2 rule 13\n"),
        (TWO_LETTERS, SEVEN, "refused at place\n5 bench 0\n"),
        (MARKED, SEVEN, "refused at place\n6 bench 0\n"),
    ];
    for (duty, rule, printed) in cases {
        reports(&rt, heap, duty, rule, printed)?;
        tells(&rt, heap, duty, rule, printed)?;
    }
    Ok(())
}

// 8,192 bytes are the most. A longer text is refused as a whole, at place 0, even where a line of it is out of range: 17 letters are
// one too many.
#[test]
fn lengths(rt: HostRuntime) -> Result<(), Fail> {
    let heap = rt.alloc();
    let most = long(heap, "1")?;
    assert_eq!(rt; most.len(), 8192);
    let most = most.as_str();
    reports(&rt, heap, most, most, "verdict nodes\nkeep 3\n")?;
    tells(&rt, heap, most, most, "verdict nodes\nkeep 3\n")?;
    let listed = "chart states letters empty\nduty 1 1 no\nrule 1 1 no\n";
    lists(&rt, heap, most, most, listed)?;
    let beyond = long(heap, "17")?;
    assert_eq!(rt; beyond.len(), 8193);
    let beyond = beyond.as_str();
    let cases = [
        (beyond, FORM, "refused at place\n1 duty 0\n"),
        (FORM, beyond, "refused at place\n1 duty 4\n"),
        (TWO_LETTERS, beyond, "refused at place\n1 rule 0\n"),
    ];
    for (duty, rule, printed) in cases {
        reports(&rt, heap, duty, rule, printed)?;
        tells(&rt, heap, duty, rule, printed)?;
        lists(&rt, heap, duty, rule, printed)?;
    }
    Ok(())
}

fn parts(rt: &impl Abort, duty: &str, rule: &str, told: Result<Verdict, Refusal>) {
    let Report(found) = decide_texts(duty.as_bytes(), rule.as_bytes());
    assert_eq!(rt; found, told);
}

// The parts of a report, beside what is printed.
#[test]
fn verdict_or_refusal(rt: HostRuntime) {
    let verdict = Verdict {
        kind: Kind::Break,
        nodes: 6,
    };
    parts(&rt, MARKED, UNMARKED, Ok(verdict));
    let states = Refusal {
        side: Side::Bench,
        fault: BenchFault::Instance(InstanceFault::States),
    };
    parts(&rt, MARKED, SEVEN, Err(states));
    let range = Refusal {
        side: Side::Rule,
        fault: BenchFault::Chart(ChartFault::Text(TextFault::Range(2))),
    };
    parts(&rt, MARKED, RANGE, Err(range));
}
