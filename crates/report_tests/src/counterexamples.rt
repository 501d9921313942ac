// What is told of two texts where a word is told of a break.
use crate::printed::{MARKED, UNMARKED, tells};
use report::{
    Counterexample, CounterexampleReport, Letters, Record, Told, counterexample_of_texts,
};
use std::test::Fail;

// The duty takes a a a .. alone, and the rule takes nothing. Their ranked graph has one lasso through a marked node that passes no
// node twice: a step to the marked node, and two round it.
#[test]
fn one_letter(rt: HostRuntime) -> Result<(), Fail> {
    tells(&rt, rt.alloc(), MARKED, UNMARKED, "stem loop\na aa\n")
}

// The counterexample that is told of the two texts.
fn broken(duty: &str, rule: &str) -> Result<Counterexample, Fail> {
    match counterexample_of_texts(duty.as_bytes(), rule.as_bytes()) {
        CounterexampleReport(Ok(Told::Broken(counterexample))) => Ok(counterexample),
        _ => Err(Fail::new("no counterexample")),
    }
}

// The duty takes one word, a p p p .., so a is the stem's first letter, and every other letter is p.
#[test]
fn letter_once(rt: HostRuntime) -> Result<(), Fail> {
    let duty = "letters\n16\nstate start mark\n0 > .\n1 . *\nfrom by to\n0 a 1\n1 p 1\n";
    let rule = "letters\n16\nstate start mark\n0 > .\nfrom by to\n0 # 0\n";
    let counterexample = broken(duty, rule)?;
    let stem = counterexample.stem().records;
    assert!(rt; !stem.is_empty());
    let records = stem.iter().chain(counterexample.cycle().records);
    for (place, record) in records.enumerate() {
        assert_eq!(rt; record.letter, if place == 0 { 0 } else { 15 });
    }
    Ok(())
}

// The duty takes one word, a b a b .., so the letters are a and b in turn, and those of the loop even in number.
#[test]
fn letters_in_turn(rt: HostRuntime) -> Result<(), Fail> {
    let duty = "letters\n2\nstate start mark\n0 > *\n1 . .\nfrom by to\n0 a 1\n1 b 0\n";
    let rule = "letters\n2\nstate start mark\n0 > .\nfrom by to\n0 # 0\n";
    let counterexample = broken(duty, rule)?;
    let cycle = counterexample.cycle().records;
    assert!(rt; !cycle.is_empty());
    assert_eq!(rt; cycle.len() % 2, 0);
    let records = counterexample.stem().records.iter().chain(cycle);
    for (place, record) in records.enumerate() {
        assert_eq!(rt; record.letter as usize, place % 2);
    }
    Ok(())
}

// A verdict that is not break is told as ever.
#[test]
fn kept(rt: HostRuntime) -> Result<(), Fail> {
    tells(&rt, rt.alloc(), MARKED, MARKED, "verdict nodes\nkeep 3\n")
}

// A stem may have no letter. The first of the 16 letters is a, the last is p.
#[test]
fn letters(rt: HostRuntime) -> Result<(), Fail> {
    let heap = rt.alloc();
    let none = Letters { records: &[] }.to_string(heap)?;
    assert_eq!(rt; none.as_str(), "-");
    let last = Record {
        node: 1,
        letter: 15,
        measure: 2,
    };
    let word = [Record::default(), last];
    let both = Letters { records: &word }.to_string(heap)?;
    assert_eq!(rt; both.as_str(), "ap");
    Ok(())
}
