// The rules of slips, met and broken. At one place the lowest rule is told, and of several places the first.
use crate::small::{
    AGAIN, ASIDE, Answer, BACK, END, FALLING, MARK, START, breaks_break, breaks_keep, broken,
    drafted, falling, inspected, kept, lasso, measured, passed,
};
use bench::{BenchFault, BreakRule, KeepRule, Kind, Record, State};
use samples::{USED, node, records};
use std::process::Abort;
use std::test::Fail;

// The state that inspection leaves.
fn left(answer: Answer, kind: Kind, count: usize, stem: usize) -> State {
    match answer {
        Ok(()) => passed(kind, count, stem),
        Err(_) => drafted(kind, count, stem),
    }
}

// A keep slip is put where both charts are a marked state with a loop.
fn keeps(rt: &impl Abort, records: &[Record], answer: Answer) -> Result<(), BenchFault> {
    let mut bench = kept(3)?;
    let said = inspected(&mut bench, Kind::Keep, 0, records, &mut [USED; 6]);
    assert_eq!(rt; said, answer);
    assert_eq!(rt; bench.state(), left(answer, Kind::Keep, records.len(), 0));
    Ok(())
}

// In any order, with records that stand twice, and with a node that is not reached and leads to END. Measures may rise against the
// edges, and one of two records is enough.
#[test]
fn keep_met(rt: HostRuntime) -> Result<(), Fail> {
    keeps(&rt, &records([END, START, AGAIN, END, AGAIN]), Ok(()))?;
    keeps(&rt, &records([START, AGAIN, END, node!(0: [0])]), Ok(()))?;
    keeps(&rt, &measured([(START, 5), (AGAIN, 5), (END, 3)]), Ok(()))?;
    let twice = measured([(START, 0), (AGAIN, 1), (END, 0), (AGAIN, 0)]);
    keeps(&rt, &twice, Ok(()))?;
    Ok(())
}

#[test]
fn keep_broken(rt: HostRuntime) -> Result<(), Fail> {
    let no_node = records([START, AGAIN, END, BACK]);
    keeps(&rt, &no_node, Err(breaks_keep(KeepRule::Node, 3)))?;
    let mut records = records([START, AGAIN, END]);
    records[1].letter = 1;
    keeps(&rt, &records, Err(breaks_keep(KeepRule::Node, 1)))?;
    keeps(&rt, &records[1..2], Err(breaks_keep(KeepRule::Node, 0)))?;
    keeps(&rt, &records[..2], Err(breaks_keep(KeepRule::Next, 0)))?;
    let rising = measured([(START, 1), (AGAIN, 0), (END, 1)]);
    keeps(&rt, &rising, Err(breaks_keep(KeepRule::Next, 1)))?;
    keeps(&rt, &records[2..], Err(breaks_keep(KeepRule::Starts, 1)))?;
    keeps(&rt, &[], Err(breaks_keep(KeepRule::Starts, 0)))?;
    Ok(())
}

// Measures fall at marked nodes, of which place 5 has the first.
#[test]
fn falling_measures(rt: HostRuntime) -> Result<(), Fail> {
    let mut bench = falling(11)?;
    let mut table = [USED; 22];
    let mut records = measured(FALLING);
    let said = inspected(&mut bench, Kind::Keep, 0, &records, &mut table);
    assert_eq!(rt; said, Ok(()));
    records[5].measure = 0;
    let said = inspected(&mut bench, Kind::Keep, 0, &records, &mut table);
    assert_eq!(rt; said, Err(breaks_keep(KeepRule::Next, 5)));
    let alike = FALLING.map(|(node, _)| node.measured(7));
    let said = inspected(&mut bench, Kind::Keep, 0, &alike, &mut table);
    assert_eq!(rt; said, Err(breaks_keep(KeepRule::Next, 5)));
    Ok(())
}

// A break slip is put where the rule's state is unmarked.
fn breaks(
    rt: &impl Abort,
    stem: usize,
    records: &[Record],
    answer: Answer,
) -> Result<(), BenchFault> {
    let mut bench = broken(3)?;
    let said = inspected(&mut bench, Kind::Break, stem, records, &mut [USED; 6]);
    assert_eq!(rt; said, answer);
    assert_eq!(rt;
        bench.state(),
        left(answer, Kind::Break, records.len(), stem)
    );
    Ok(())
}

// Nodes may stand more than once, and the loop may go round more than once.
#[test]
fn break_met(rt: HostRuntime) -> Result<(), Fail> {
    breaks(&rt, 1, &lasso(), Ok(()))?;
    breaks(&rt, 1, &records([START, MARK, BACK, MARK, BACK]), Ok(()))?;
    breaks(&rt, 2, &records([START, AGAIN, MARK, BACK]), Ok(()))?;
    breaks(&rt, 2, &records([START, MARK, BACK, MARK]), Ok(()))?;
    Ok(())
}

// A number that is no node; a letter and a measure; a node that is no start; a step in the middle, and from the last record to
// the one at the loop place; no marked node from the loop place on.
#[test]
fn break_broken(rt: HostRuntime) -> Result<(), Fail> {
    let no_node = records([node!(0: [1] owed 0b1), MARK, BACK]);
    breaks(&rt, 1, &no_node, Err(breaks_break(BreakRule::Node, 0)))?;
    let mut spoilt = lasso();
    spoilt[2].measure = 1;
    breaks(&rt, 1, &spoilt, Err(breaks_break(BreakRule::Node, 2)))?;
    spoilt[1].letter = 1;
    breaks(&rt, 1, &spoilt, Err(breaks_break(BreakRule::Node, 1)))?;
    let no_start = records([AGAIN, MARK, BACK]);
    breaks(&rt, 1, &no_start, Err(breaks_break(BreakRule::Start, 0)))?;
    let apart = records([START, MARK, END]);
    breaks(&rt, 1, &apart, Err(breaks_break(BreakRule::Next, 1)))?;
    breaks(&rt, 2, &lasso(), Err(breaks_break(BreakRule::Next, 2)))?;
    let unmarked = records([START, MARK, ASIDE, END]);
    breaks(&rt, 3, &unmarked, Err(breaks_break(BreakRule::Mark, 4)))?;
    Ok(())
}
