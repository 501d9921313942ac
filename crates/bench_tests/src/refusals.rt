// The refusals of each call in their order, and what they leave.
use crate::small::{AGAIN, Answer, FULL, Small, breaks_break, broken, drafted, lasso, passed};
use bench::{BenchFault, Breach, BreakRule, KeepRule, Kind, Record, Rule, State};
use fault::{ChartFault, Fault, Refusal, RuleNumber, TextFault};
use ranked::InstanceFault;
use records::SearchFault;
use samples::USED;
use std::process::Abort;
use std::test::Fail;

const ROOM: Answer = Err(BenchFault::Room);

// Calls on a bench with a room of 6 refuse every table of another length, and alter nothing.
fn refuses_tables(rt: &impl Abort, bench: &mut Small) {
    let state = bench.state();
    let mut table = [USED; 24];
    let mut work = [USED; 12];
    for (records, nodes) in [
        (11, 6),
        (13, 6),
        (0, 6),
        (24, 6),
        (12, 5),
        (12, 7),
        (12, 0),
        (11, 5),
    ] {
        let said = bench.judge(&mut table[..records.min(24)], &mut work[..nodes.min(12)]);
        assert_eq!(rt; said, Err(BenchFault::Room), "{records} {nodes}");
    }
    for records in [11, 13, 0, 24] {
        let lent = &mut table[..records.min(24)];
        assert_eq!(rt; bench.put(Kind::Keep, 1, &lasso(), lent), ROOM, "{records}");
        assert_eq!(rt; bench.inspect(lent), ROOM, "{records}");
        assert_eq!(rt;
            bench.release(lent).err(),
            Some(BenchFault::Room),
            "{records}"
        );
    }
    assert_eq!(rt; bench.state(), state);
    assert!(rt; table == [USED; 24] && work == [USED; 12]);
}

// 7 comes before each other refusal: 9, 11 and 13 of an empty bench, 9, 10, 12 and 14 of one with a draft, whose last record does
// not lead to itself, and 10 of one with a passed slip.
#[test]
fn tables(rt: HostRuntime) -> Result<(), Fail> {
    let mut bench = broken(6)?;
    refuses_tables(&rt, &mut bench);
    let mut table = [USED; 12];
    bench.put(Kind::Break, 2, &lasso(), &mut table)?;
    refuses_tables(&rt, &mut bench);
    bench.clear();
    bench.put(Kind::Break, 1, &lasso(), &mut table)?;
    bench.inspect(&table)?;
    refuses_tables(&rt, &mut bench);
    Ok(())
}

// A bench with a room of 5 takes no slip beside the one that it has. 10 comes before 9, and before 13: 6 nodes can be reached.
fn is_occupied(rt: &impl Abort, bench: &mut Small, table: &mut [Record]) {
    let state = bench.state();
    let mut work = [USED; 5];
    let refused = Err(BenchFault::Occupied);
    assert_eq!(rt; bench.put(Kind::Keep, 0, &[], table), refused);
    assert_eq!(rt; bench.put(Kind::Break, 3, &lasso(), table), refused);
    assert_eq!(rt; bench.judge(table, &mut work), Err(BenchFault::Occupied));
    assert_eq!(rt; work, [USED; 5]);
    assert_eq!(rt; bench.state(), state);
}

#[test]
fn occupied(rt: HostRuntime) -> Result<(), Fail> {
    let mut bench = broken(5)?;
    let mut table = [USED; 10];
    bench.put(Kind::Break, 1, &lasso(), &mut table)?;
    let before = table;
    is_occupied(&rt, &mut bench, &mut table);
    bench.inspect(&table)?;
    is_occupied(&rt, &mut bench, &mut table);
    assert_eq!(rt; table, before);
    assert_eq!(rt; bench.state(), passed(Kind::Break, 3, 1));
    Ok(())
}

// Whatever stands in the table. Where the search has no room, the table is as it was, and the bench is empty still.
#[test]
fn vacant(rt: HostRuntime) -> Result<(), Fail> {
    let mut bench = broken(5)?;
    let mut table = [AGAIN.measured(0); 10];
    assert_eq!(rt; bench.inspect(&table), Err(BenchFault::Vacant));
    assert_eq!(rt; bench.release(&table).err(), Some(BenchFault::Vacant));
    assert_eq!(rt; bench.judge(&mut table, &mut [USED; 5]), FULL);
    assert_eq!(rt; table, [AGAIN.measured(0); 10]);
    assert_eq!(rt; bench.state(), State::Empty);
    Ok(())
}

// 14 is told as often as it is asked, and 12 before the slip is passed.
#[test]
fn unpassed(rt: HostRuntime) -> Result<(), Fail> {
    let mut bench = broken(6)?;
    let mut table = [USED; 12];
    bench.put(Kind::Break, 2, &lasso(), &mut table)?;
    for _ in 0..2 {
        assert_eq!(rt; bench.release(&table).err(), Some(BenchFault::Unpassed));
        assert_eq!(rt;
            bench.inspect(&table),
            Err(breaks_break(BreakRule::Next, 2))
        );
        assert_eq!(rt; bench.state(), drafted(Kind::Break, 3, 2));
    }
    Ok(())
}

// What a reader is told of each. The faults of a chart, of an instance and of a search are kept.
#[test]
fn told(rt: HostRuntime) {
    let keep = Breach {
        rule: Rule::Keep(KeepRule::Next),
        place: 7,
    };
    let end = Breach {
        rule: Rule::Break(BreakRule::Mark),
        place: 131072,
    };
    let cases = [
        (
            BenchFault::from(ChartFault::from(TextFault::Form(7))),
            1,
            7,
            None,
        ),
        (
            BenchFault::from(ChartFault::from(TextFault::Range(9))),
            2,
            9,
            None,
        ),
        (BenchFault::from(ChartFault::FewRows), 3, 0, None),
        (BenchFault::from(ChartFault::Limits), 4, 0, None),
        (BenchFault::from(InstanceFault::Letters), 5, 0, None),
        (BenchFault::from(InstanceFault::States), 6, 0, None),
        (BenchFault::Room, 7, 0, None),
        (BenchFault::from(SearchFault::Table), 7, 0, None),
        (BenchFault::Shape, 9, 0, None),
        (BenchFault::Occupied, 10, 0, None),
        (BenchFault::Vacant, 11, 0, None),
        (BenchFault::Unpassed, 12, 0, None),
        (BenchFault::from(SearchFault::Full), 13, 0, None),
        (BenchFault::Broken(keep), 14, 7, Some(RuleNumber::Keep(2))),
        (
            BenchFault::Broken(end),
            14,
            131072,
            Some(RuleNumber::Break(4)),
        ),
    ];
    for (fault, number, place, rule) in cases {
        let refusal = Refusal {
            number,
            place,
            rule,
        };
        assert_eq!(rt; fault.refusal(), refusal);
    }
}
