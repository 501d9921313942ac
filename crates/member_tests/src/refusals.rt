// When the two questions are refused, and by what, in which order.
use crate::questions::{blanks, told};
use chart::Table;
use fault::{Fault, Refusal};
use lasso::LassoFault;
use member::{MemberFault, empty};
use records::{Record, SearchFault};
use std::test::Fail;

const TABLE: MemberFault = MemberFault::Search(SearchFault::Table);

const FULL: MemberFault = MemberFault::Search(SearchFault::Full);

const LIMITS: MemberFault = MemberFault::Word(LassoFault::Limits);

const LETTER: MemberFault = MemberFault::Word(LassoFault::Letter);

// A work table has 1 to 65,536 records, and a refused one is as it was.
#[test]
fn tables(rt: HostRuntime) -> Result<(), Fail> {
    let rows = [0b1];
    let chart = Table::new(1, 1, 0b1, 0b1, &rows)?;
    let used = Record {
        node: 7,
        letter: 3,
        measure: 9,
    };
    let mut work = vec![in rt.alloc(); used; 65537]?;
    assert_eq!(rt; empty(&chart, &mut []), Err(SearchFault::Table));
    assert_eq!(rt; empty(&chart, &mut work), Err(SearchFault::Table));
    assert_eq!(rt; told(&chart, &[0], 0, &mut []), Err(TABLE));
    assert_eq!(rt; told(&chart, &[0], 0, &mut work), Err(TABLE));
    assert!(rt; work.iter().all(|record| *record == used));
    work.pop();
    assert_eq!(rt; empty(&chart, &mut work), Ok(false));
    assert_eq!(rt; told(&chart, &[0], 0, &mut work), Ok(true));
    assert_eq!(rt; empty(&chart, &mut blanks::<1>()), Ok(false));
    assert_eq!(rt; told(&chart, &[0], 0, &mut blanks::<1>()), Ok(true));
    Ok(())
}

// Three states in a ring can be reached, and no fourth. With a loop of two letters there are six pairs of a place and a state; a
// stem of one letter adds its place with state 0 to those of a loop of one.
#[test]
fn records_for_nodes(rt: HostRuntime) -> Result<(), Fail> {
    let rows = [0b0010, 0b0100, 0b0001, 0b0001];
    let chart = Table::new(4, 1, 0b0001, 0b0100, &rows)?;
    assert_eq!(rt; empty(&chart, &mut blanks::<2>()), Err(SearchFault::Full));
    assert_eq!(rt; empty(&chart, &mut blanks::<3>()), Ok(false));
    assert_eq!(rt; told(&chart, &[0, 0], 0, &mut blanks::<5>()), Err(FULL));
    assert_eq!(rt; told(&chart, &[0, 0], 0, &mut blanks::<6>()), Ok(true));
    assert_eq!(rt; told(&chart, &[0, 0], 1, &mut blanks::<3>()), Err(FULL));
    assert_eq!(rt; told(&chart, &[0, 0], 1, &mut blanks::<4>()), Ok(true));
    Ok(())
}

// A word has 1 to 131,072 letters, and its loop one of them at least. The chart has no step, so that one pair can be reached in
// each.
#[test]
fn lengths(rt: HostRuntime) -> Result<(), Fail> {
    let rows = [0];
    let chart = Table::new(1, 1, 0b1, 0b1, &rows)?;
    let letters = vec![in rt.alloc(); 0u8; 131073]?;
    let cases = [
        (0, 0, Err(LIMITS)),
        (1, 0, Ok(false)),
        (1, 1, Err(LIMITS)),
        (131072, 0, Ok(false)),
        (131072, 131071, Ok(false)),
        (131072, 131072, Err(LIMITS)),
        (131073, 0, Err(LIMITS)),
    ];
    for (count, stem, said) in cases {
        let word = letters.get(..count).unwrap_or_default();
        let answer = told(&chart, word, stem, &mut blanks::<1>());
        assert_eq!(rt; answer, said, "{count} {stem}");
    }
    Ok(())
}

// 7 comes before 8, 8 by the limits before 8 by a letter, and 8 before 13. The chart has one letter, and two states can be reached.
#[test]
fn order(rt: HostRuntime) -> Result<(), Fail> {
    let rows = [0b10, 0b01];
    let chart = Table::new(2, 1, 0b01, 0b10, &rows)?;
    assert_eq!(rt; told(&chart, &[1], 1, &mut []), Err(TABLE));
    assert_eq!(rt; told(&chart, &[1], 1, &mut blanks::<1>()), Err(LIMITS));
    assert_eq!(rt; told(&chart, &[0, 1], 0, &mut blanks::<1>()), Err(LETTER));
    assert_eq!(rt; told(&chart, &[0], 0, &mut blanks::<1>()), Err(FULL));
    assert_eq!(rt; told(&chart, &[0], 0, &mut blanks::<2>()), Ok(true));
    let numbers = [
        TABLE.refusal(),
        LIMITS.refusal(),
        LETTER.refusal(),
        FULL.refusal(),
    ];
    assert_eq!(rt; numbers, [7, 8, 8, 13].map(|number| Refusal::plain(number)));
    Ok(())
}
