// Slips by hand that are confirmed. The duty is a marked state with a loop.
use crate::small::{AGAIN, BACK, END, MARK, START, breaks_break, breaks_keep, form};
use bench::{BenchFault, BreakRule, KeepRule, Kind, Record};
use chart::{Fitted, Table, Union};
use fault::ChartFault;
use ranked::InstanceFault;
use samples::{USED, looping, marked, records, unmarked};
use std::test::Fail;
use verdict::confirm;

// A passed slip stands in the table. The rest of it stays as it was.
#[test]
fn breaks(rt: HostRuntime) -> Result<(), Fail> {
    let given = records([START, MARK, BACK]);
    let mut table = [USED; 4];
    let passed = confirm(
        marked()?,
        unmarked()?,
        2,
        Kind::Break,
        1,
        &given,
        &mut table,
    )?;
    assert_eq!(rt; passed, form(Kind::Break, 3, 1));
    assert_eq!(rt; table, [given[0], given[1], given[2], USED]);
    Ok(())
}

// A union as the duty, and a fitted chart as the rule.
#[test]
fn keeps(rt: HostRuntime) -> Result<(), Fail> {
    let given = records([END, AGAIN, START, START]);
    let duty = Union::new(marked()?, looping(false, false)?)?;
    let rule = Fitted::new(marked()?);
    let mut table = [USED; 4];
    let passed = confirm(duty, rule, 2, Kind::Keep, 0, &given, &mut table)?;
    assert_eq!(rt; passed, form(Kind::Keep, 4, 0));
    assert_eq!(rt; table, given);
    Ok(())
}

// Why such a slip is refused, with a rule of so many states and letters that has no step, and a table of 4 records.
fn refused(
    states: u8,
    letters: u8,
    room: usize,
    kind: Kind,
    stem: usize,
    given: &[Record],
) -> Result<Option<BenchFault>, ChartFault> {
    let rows = [0; 24];
    let rule = Table::new(states, letters, 0b1, 0, &rows)?;
    Ok(confirm(marked()?, rule, room, kind, stem, given, &mut [USED; 4]).err())
}

// 5 comes before 6, 6 before 7, 7 before 9, and 9 before 14.
#[test]
fn order(rt: HostRuntime) -> Result<(), Fail> {
    let five = [START.measured(1); 5];
    let letters = BenchFault::Instance(InstanceFault::Letters);
    let states = BenchFault::Instance(InstanceFault::States);
    let starts = breaks_keep(KeepRule::Starts, 0);
    let node = breaks_break(BreakRule::Node, 0);
    let cases = [
        (7, 2, 0, Kind::Break, 0, 0, letters),
        (7, 1, 0, Kind::Break, 0, 0, states),
        (6, 1, 0, Kind::Break, 0, 0, BenchFault::Room),
        (6, 1, 1, Kind::Break, 0, 0, BenchFault::Room),
        (6, 1, 3, Kind::Break, 0, 0, BenchFault::Room),
        (6, 1, 65537, Kind::Break, 0, 0, BenchFault::Room),
        (6, 1, 2, Kind::Break, 0, 0, BenchFault::Shape),
        (6, 1, 2, Kind::Break, 0, 5, BenchFault::Shape),
        (6, 1, 2, Kind::Keep, 1, 0, BenchFault::Shape),
        (6, 1, 2, Kind::Keep, 0, 0, starts),
        (6, 1, 2, Kind::Break, 0, 4, node),
    ];
    for (of_rule, of_letters, room, kind, stem, count, told) in cases {
        let given = five.get(..count).unwrap_or_default();
        let said = refused(of_rule, of_letters, room, kind, stem, given)?;
        assert_eq!(rt; said, Some(told), "{kind} {stem} {count}");
    }
    Ok(())
}
