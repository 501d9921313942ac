// Tables of every length: 7 for one with no record or too many, 13 for one with too few for the nodes.
use crate::expected::plain;
use fault::{Fault, Refusal};
use graph::Map;
use lasso::NO_WORD;
use records::{SearchFault, check_table};
use samples::{Ends, USED};
use search::survey;
use std::alloc::{AllocError, Global};
use std::test::Fail;

type Count = Result<usize, SearchFault>;

const TABLE: Count = Err(SearchFault::Table);

const FULL: Count = Err(SearchFault::Full);

// How many nodes a search finds in a table of so many records, or why it is refused.
fn count<M: Map>(heap: Global, map: &M, records: usize) -> Result<Count, AllocError> {
    let mut work = vec![in heap; USED; records]?;
    Ok(survey(map, NO_WORD, work.as_mut_slice()).map(|found| found.count))
}

// A table has 1 to 65,536 records. Its length is looked at first: with no record it is refused by 7, whether there is a node or not.
#[test]
fn tables(rt: HostRuntime) -> Result<(), Fail> {
    let heap = rt.alloc();
    let (one, none) = (plain(0b1, 0b0, &[]), plain(0b0, 0b0, &[]));
    for records in [0, 65_537] {
        assert_eq!(rt; count(heap, &one, records)?, TABLE);
        assert_eq!(rt; count(heap, &none, records)?, TABLE);
    }
    for records in [1, 2, 65_536] {
        assert_eq!(rt; count(heap, &one, records)?, Ok(1));
        assert_eq!(rt; count(heap, &none, records)?, Ok(0));
    }
    Ok(())
}

// Refused by 7 the table is as it was.
#[test]
fn table_alone(rt: HostRuntime) -> Result<(), Fail> {
    let mut work = vec![in rt.alloc(); USED; 65_537]?;
    assert_eq!(rt; check_table(work.as_slice()), Err(SearchFault::Table));
    assert!(rt; survey(&plain(0b1, 0b0, &[]), NO_WORD, work.as_mut_slice()).is_err());
    assert!(rt; work.iter().all(|record| *record == USED));
    work.pop();
    assert_eq!(rt; check_table(work.as_slice()), Ok(()));
    assert_eq!(rt; check_table(&[]), Err(SearchFault::Table));
    assert_eq!(rt; check_table(&[USED]), Ok(()));
    let told = [SearchFault::Table.refusal(), SearchFault::Full.refusal()];
    assert_eq!(rt; told, [Refusal::plain(7), Refusal::plain(13)]);
    Ok(())
}

// A row of 5 nodes, with and without an edge from the last to the first; starts that lead nowhere take a record each.
#[test]
fn records_for_nodes(rt: HostRuntime) -> Result<(), Fail> {
    let heap = rt.alloc();
    let row = [0b10, 0b100, 0b1000, 0b10000, 0b0];
    let ring = [0b10, 0b100, 0b1000, 0b10000, 0b1];
    for rows in [row, ring] {
        let map = plain(0b1, 0b11111, &rows);
        assert_eq!(rt; count(heap, &map, 1)?, FULL);
        assert_eq!(rt; count(heap, &map, 4)?, FULL);
        assert_eq!(rt; count(heap, &map, 5)?, Ok(5));
        assert_eq!(rt; count(heap, &map, 6)?, Ok(5));
    }
    let three = plain(0b10101, 0b0, &[]);
    assert_eq!(rt;
        [count(heap, &three, 2)?, count(heap, &three, 3)?],
        [FULL, Ok(3)]
    );
    let ends = Ends {
        loops: true,
        marked: true,
    };
    assert_eq!(rt;
        [count(heap, &ends, 1)?, count(heap, &ends, 2)?],
        [FULL, Ok(2)]
    );
    Ok(())
}
