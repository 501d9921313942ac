// Slips by hand held against a verdict of our own. The duty is a marked state with a loop.
use crate::small::{BACK, MARK, START, breaks};
use bench::{BenchFault, Breach, BreakRule, Kind, Record, Rule};
use chart::Table;
use fault::ChartFault;
use ranked::InstanceFault;
use records::SearchFault;
use samples::{USED, marked, records};
use std::test::Fail;
use verdict::{Audited, audit};

type Told = Result<Audited, BenchFault>;

// What is said of a break slip, by its loop place and its records, for a rule of so many states and letters that takes nothing.
fn said(
    states: u8,
    letters: u8,
    room: usize,
    stem: usize,
    given: &[Record],
    table: &mut [Record],
    work: &mut [Record],
) -> Result<Told, ChartFault> {
    let rows = [0b1; 14];
    let rule = Table::new(states, letters, 0b1, 0, &rows)?;
    Ok(audit(marked()?, rule, room, Kind::Break, stem, given, table, work))
}

// From loop place 2 on, BACK would have to lead to itself. The verdict is told all the same, and its slip stands in the table;
// past it stands what is left of the slip that was given, and then what the table had.
#[test]
fn breaches(rt: HostRuntime) -> Result<(), Fail> {
    let given = records([
        START, MARK, BACK, MARK, BACK, MARK, BACK, MARK, BACK, MARK, BACK,
    ]);
    let last = Breach {
        rule: Rule::Break(BreakRule::Next),
        place: 10,
    };
    for (stem, breach) in [(1, None), (2, Some(last))] {
        let mut table = [USED; 12];
        let audited = said(1, 1, 6, stem, &given, &mut table, &mut [USED; 6])??;
        assert_eq!(rt; audited.breach, breach, "from {stem} on");
        assert_eq!(rt; Ok(audited.certified.verdict), breaks(6));
        let form = audited.certified.form;
        assert_eq!(rt; form.kind, Kind::Break);
        assert!(rt; form.stem < form.count && form.count <= 12);
        for record in records([MARK, BACK]) {
            assert!(rt; table[form.stem.min(12)..form.count.min(12)].contains(&record));
        }
        assert_eq!(rt; table[form.count.min(11)..11], given[form.count.min(11)..]);
        assert_eq!(rt; table[11], USED);
    }
    Ok(())
}

// 5 comes before 6, 6 before 7, 7 before 9, and 9 before 13, which leaves the slip that was given in the table.
#[test]
fn order(rt: HostRuntime) -> Result<(), Fail> {
    let given = records([START, MARK, BACK]);
    let full = BenchFault::Search(SearchFault::Full);
    let cases = [
        (
            7,
            2,
            0,
            3,
            10,
            5,
            BenchFault::Instance(InstanceFault::Letters),
        ),
        (
            7,
            1,
            0,
            3,
            10,
            5,
            BenchFault::Instance(InstanceFault::States),
        ),
        (1, 1, 5, 3, 9, 5, BenchFault::Room),
        (1, 1, 5, 3, 11, 5, BenchFault::Room),
        (1, 1, 5, 3, 10, 4, BenchFault::Room),
        (1, 1, 5, 3, 10, 6, BenchFault::Room),
        (1, 1, 5, 3, 10, 5, BenchFault::Shape),
        (1, 1, 5, 1, 10, 5, full),
    ];
    for (states, letters, room, stem, slips, nodes, fault) in cases {
        let mut table = [USED; 11];
        let mut work = [USED; 6];
        let (lent, _) = table.split_at_mut(slips.min(11));
        let (searched, _) = work.split_at_mut(nodes.min(6));
        let told = said(states, letters, room, stem, &given, lent, searched)?;
        assert_eq!(rt; told, Err(fault));
        let left = if fault == full { given } else { [USED; 3] };
        assert_eq!(rt; &table[..3], left.as_slice());
        assert_eq!(rt; &table[3..], [USED; 8].as_slice());
    }
    Ok(())
}
