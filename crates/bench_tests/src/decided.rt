// The order in which a decision is refused.
use crate::small::{FULL, Told, breaks};
use bench::{BenchFault, Record};
use chart::Table;
use fault::ChartFault;
use ranked::InstanceFault;
use samples::USED;
use std::test::Fail;
use verdict::decide;

// What is said of a duty of 2 letters that takes every word, and a rule of so many states and letters that takes none.
fn said(
    states: u8,
    letters: u8,
    room: usize,
    table: &mut [Record],
    work: &mut [Record],
) -> Result<Told, ChartFault> {
    let duty = Table::new(1, 2, 0b1, 0b1, &[0b1; 2])?;
    let rows = [0; 24];
    let rule = Table::new(states, letters, 0b1, 0, &rows)?;
    Ok(decide(duty, rule, room, table, work).map(|certified| certified.verdict))
}

// 5 comes before 6, 6 before 7, and 7 before 13. There are 3 nodes. No refusal alters the slip table, and only 13 the work table.
#[test]
fn order(rt: HostRuntime) -> Result<(), Fail> {
    let letters = Err(BenchFault::Instance(InstanceFault::Letters));
    let states = Err(BenchFault::Instance(InstanceFault::States));
    let room = Err(BenchFault::Room);
    let cases = [
        (7, 3, 0, 0, 0, letters),
        (6, 1, 2, 4, 2, letters),
        (7, 2, 0, 0, 0, states),
        (7, 2, 2, 4, 2, states),
        (6, 2, 2, 3, 2, room),
        (6, 2, 2, 5, 2, room),
        (6, 2, 2, 4, 1, room),
        (6, 2, 2, 4, 3, room),
        (6, 2, 2, 4, 2, FULL),
    ];
    let mut table = [USED; 6];
    let mut work = [USED; 3];
    for (of_rule, of_letters, room, records, nodes, refused) in cases {
        assert!(rt; work == [USED; 3]);
        let (lent, _) = table.split_at_mut(records.min(6));
        let (searched, _) = work.split_at_mut(nodes.min(3));
        assert_eq!(rt;
            said(of_rule, of_letters, room, lent, searched)?,
            refused,
            "{records} {nodes}"
        );
        assert!(rt; table == [USED; 6]);
    }
    assert_eq!(rt; said(6, 2, 3, &mut table, &mut work)?, breaks(3));
    Ok(())
}
