// Slips that are put: both sides of their limits, and what is left of the table.
use crate::small::{AGAIN, BACK, END, MARK, START, broken, drafted};
use bench::{BenchFault, Kind, State};
use samples::{USED, records};
use std::test::Fail;

// A room of 6 has slips of 12 records at most. A keep slip has loop place 0, and a break slip that of a record. Refused by 9
// nothing is altered, and else the records past those that are put stay as they were.
#[test]
fn limits(rt: HostRuntime) -> Result<(), Fail> {
    let mut bench = broken(6)?;
    let records = records([
        START, AGAIN, AGAIN, AGAIN, AGAIN, AGAIN, AGAIN, AGAIN, AGAIN, AGAIN, MARK, BACK, END,
    ]);
    let cases = [
        (Kind::Keep, 0, 0, true),
        (Kind::Keep, 0, 12, true),
        (Kind::Keep, 0, 13, false),
        (Kind::Keep, 1, 3, false),
        (Kind::Keep, usize::MAX, 3, false),
        (Kind::Break, 0, 0, false),
        (Kind::Break, 0, 3, true),
        (Kind::Break, 2, 3, true),
        (Kind::Break, 3, 3, false),
        (Kind::Break, usize::MAX, 3, false),
        (Kind::Break, 0, 13, false),
        (Kind::Break, 10, 12, true),
    ];
    for (kind, stem, count, fits) in cases {
        bench.clear();
        let mut table = [USED; 12];
        let given = records.get(..count).unwrap_or_default();
        let said = bench.put(kind, stem, given, &mut table);
        assert_eq!(rt; said.is_ok(), fits, "{kind} {stem} {count}");
        let count = count.min(12);
        if fits {
            assert_eq!(rt; bench.state(), drafted(kind, count, stem));
            assert_eq!(rt; &table[..count], given);
            assert_eq!(rt; &table[count..], &[USED; 12][count..]);
        } else {
            assert_eq!(rt; said, Err(BenchFault::Shape), "{kind} {stem} {count}");
            assert_eq!(rt; bench.state(), State::Empty);
            assert_eq!(rt; table, [USED; 12]);
        }
    }
    Ok(())
}
