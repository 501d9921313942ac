// Slips from one call to the next.
use crate::small::{
    BACK, FALLING, FULL, MARK, START, Small, breaks, breaks_break, broken, drafted, falling, keeps,
    lasso, measured,
};
use bench::{BenchFault, BreakRule, Kind, Record, State};
use samples::{USED, records};
use std::process::Abort;
use std::test::Fail;

// Each node once, with letter 0 and the greatest number of marked nodes on a walk from it. The order is free. There has to be
// room for each.
#[test]
fn keep_judged(rt: HostRuntime) -> Result<(), Fail> {
    let mut bench = falling(11)?;
    let mut table = [USED; 22];
    assert_eq!(rt; bench.judge(&mut table, &mut [USED; 11]), keeps(11));
    assert_eq!(rt; bench.state(), drafted(Kind::Keep, 11, 0));
    for record in measured(FALLING) {
        assert!(rt; table[..11].contains(&record), "{}", record.node);
    }
    assert_eq!(rt; &table[11..], [USED; 11].as_slice());
    assert_eq!(rt; bench.inspect(&table), Ok(()));
    assert_eq!(rt; bench.release(&table)?, &table[..11]);
    assert_eq!(rt; falling(10)?.judge(&mut [USED; 20], &mut [USED; 10]), FULL);
    Ok(())
}

// Which break slip is left is free, so it is inspected. It begins with the start, and its loop has the marked node, and the one
// by which alone that one comes again.
#[test]
fn break_judged(rt: HostRuntime) -> Result<(), Fail> {
    let mut bench = broken(6)?;
    let mut table = [USED; 12];
    assert_eq!(rt; bench.judge(&mut table, &mut [USED; 6]), breaks(6));
    let State::Drafted(form) = bench.state() else {
        return Err(Fail::from(BenchFault::Vacant));
    };
    assert_eq!(rt; form.kind, Kind::Break);
    assert!(rt; form.stem < form.count && form.count <= 12);
    assert_eq!(rt; &table[form.count..], &[USED; 12][form.count..]);
    assert_eq!(rt; bench.inspect(&table), Ok(()));
    assert_eq!(rt; bench.state(), State::Passed(form));
    let released = bench.release(&table)?;
    assert_eq!(rt; released, &table[form.stem..form.count]);
    assert_eq!(rt; table[0].node, START.number());
    for record in records([MARK, BACK]) {
        assert!(rt; released.contains(&record), "{}", record.node);
    }
    Ok(())
}

// The table is changed after it has passed. Once the next inspection has seen that, release refuses. Records past the slip's are
// free.
#[test]
fn spoilt(rt: HostRuntime) -> Result<(), Fail> {
    let mut bench = broken(6)?;
    let mut table = [USED; 12];
    bench.put(Kind::Break, 1, &lasso(), &mut table)?;
    bench.inspect(&table)?;
    table[3] = START.measured(0);
    assert_eq!(rt; bench.inspect(&table), Ok(()));
    table[1].measure = 1;
    assert_eq!(rt;
        bench.inspect(&table),
        Err(breaks_break(BreakRule::Node, 1))
    );
    assert_eq!(rt; bench.state(), drafted(Kind::Break, 3, 1));
    table[1].measure = 0;
    assert_eq!(rt; bench.release(&table).err(), Some(BenchFault::Unpassed));
    assert_eq!(rt; bench.inspect(&table), Ok(()));
    assert_eq!(rt; bench.release(&table)?, records([MARK, BACK]).as_slice());
    Ok(())
}

// Cleared, it has no slip, and takes one of either kind.
fn clears(rt: &impl Abort, bench: &mut Small, table: &mut [Record]) -> Result<(), Fail> {
    bench.clear();
    assert_eq!(rt; bench.state(), State::Empty);
    assert_eq!(rt; bench.release(table).err(), Some(BenchFault::Vacant));
    bench.put(Kind::Keep, 0, &lasso(), table)?;
    assert_eq!(rt; bench.state(), drafted(Kind::Keep, 3, 0));
    bench.clear();
    assert_eq!(rt; bench.judge(table, &mut [USED; 6]), breaks(6));
    Ok(())
}

// Empty, with a draft, and with a passed slip.
#[test]
fn cleared(rt: HostRuntime) -> Result<(), Fail> {
    let mut bench = broken(6)?;
    let mut table = [USED; 12];
    clears(&rt, &mut bench, &mut table)?;
    clears(&rt, &mut bench, &mut table)?;
    bench.inspect(&table)?;
    clears(&rt, &mut bench, &mut table)
}
