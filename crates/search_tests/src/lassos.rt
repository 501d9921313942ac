// Lassos through a node, where only one is shortest in both halves; and where none is written.
use crate::expected::{in_a_row, plain};
use graph::Map;
use lasso::NO_WORD;
use paths::{Extent, write_lasso};
use records::{Record, SearchFault};
use samples::{BitGraph, USED};
use std::alloc::{AllocError, Global};
use std::test::Fail;

type Written = Result<Option<Extent>, SearchFault>;

const TABLE: Written = Err(SearchFault::Table);

const FULL: Written = Err(SearchFault::Full);

// A lasso of so many records, of which so many are the stem.
fn lasso(count: usize, stem: usize) -> Written {
    Ok(Some(Extent { count, stem }))
}

// Which lasso through the node is written, with tables of so many records.
fn written<M: Map>(
    heap: Global,
    map: &M,
    node: u64,
    work: usize,
    table: usize,
) -> Result<Written, AllocError> {
    let mut work = vec![in heap; USED; work]?;
    let mut table = vec![in heap; USED; table]?;
    Ok(write_lasso(
        map,
        NO_WORD,
        node,
        work.as_mut_slice(),
        table.as_mut_slice(),
    ))
}

fn step(node: u64, letter: u8) -> Record {
    Record {
        node,
        letter,
        measure: 0,
    }
}

// 0 leads to 1, 1 to 2, and 2 to 0 and 3. 3 is marked too, and lies on no cycle.
const CYCLE: BitGraph<'static> = BitGraph {
    letters: 1,
    starts: 0b1,
    marks: 0b1010,
    rows: &[0b10, 0b100, 0b1001],
};

// The records past the lasso stay.
#[test]
fn stem_and_cycle(rt: HostRuntime) {
    let mut table = [USED; 10];
    let found = write_lasso(&CYCLE, NO_WORD, 1, &mut [USED; 5], &mut table);
    assert_eq!(rt; found, lasso(4, 1));
    assert_eq!(rt;
        &table[..4],
        [step(0, 0), step(1, 0), step(2, 0), step(0, 0)].as_slice()
    );
    assert_eq!(rt; &table[4..], [USED; 6].as_slice());
}

// 0 leads to 1 by the second letter, 1 back to 0 by the first, and 2, which is a start, to itself by the second.
#[test]
fn letters(rt: HostRuntime) {
    let map = BitGraph {
        letters: 2,
        starts: 0b101,
        marks: 0b110,
        rows: &[0b0, 0b10, 0b1, 0b0, 0b0, 0b100],
    };
    let mut table = [USED; 6];
    let found = write_lasso(&map, NO_WORD, 1, &mut [USED; 3], &mut table);
    assert_eq!(rt; found, lasso(3, 1));
    assert_eq!(rt;
        &table[..3],
        [step(0, 1), step(1, 0), step(0, 1)].as_slice()
    );
    let found = write_lasso(&map, NO_WORD, 2, &mut [USED; 3], &mut table);
    assert_eq!(rt; found, lasso(1, 0));
    assert_eq!(rt; &table[..2], [step(2, 1), step(1, 0)].as_slice());
}

// The work table has from 1 to 65,536 records, and the other at least twice as many. 64 nodes in one cycle want a record each.
#[test]
fn tables(rt: HostRuntime) -> Result<(), Fail> {
    let heap = rt.alloc();
    let rows = [0b1];
    let short = plain(0b1, 0b1, &rows);
    for (work, table) in [
        (0, 0),
        (0, 2),
        (1, 1),
        (5, 9),
        (65_536, 131_071),
        (65_537, 131_074),
    ] {
        assert_eq!(rt;
            written(heap, &short, 0, work, table)?,
            TABLE,
            "{work} {table}"
        );
    }
    for (work, table) in [
        (1, 2),
        (1, 3),
        (5, 10),
        (65_536, 131_072),
        (65_536, 131_073),
    ] {
        let found = written(heap, &short, 0, work, table)?;
        assert_eq!(rt; found, lasso(1, 0), "{work} {table}");
    }
    let rows = in_a_row(1);
    let long = plain(1, 1 << 17, &rows);
    assert_eq!(rt; written(heap, &long, 17, 64, 128)?, lasso(81, 17));
    assert_eq!(rt; written(heap, &long, 17, 63, 128)?, FULL);
    Ok(())
}

// The sizes are looked at first, which leaves both tables as they were, then the mark, which node 2 lacks, and the room last. Two
// records are enough for the path from 0 to 1, and too few for that from 1 back to it; what is behind the second record is as it
// was.
#[test]
fn order(rt: HostRuntime) -> Result<(), Fail> {
    let heap = rt.alloc();
    assert_eq!(rt; written(heap, &CYCLE, 2, 1, 1)?, TABLE);
    assert_eq!(rt; written(heap, &CYCLE, 2, 1, 2)?, Ok(None));
    assert_eq!(rt; written(heap, &CYCLE, 3, 1, 2)?, FULL);
    let mut work = [step(1, 1), step(2, 2), USED];
    let mut table = [USED, step(3, 3), step(4, 4), step(5, 5), USED];
    let found = write_lasso(&CYCLE, NO_WORD, 1, &mut work, &mut table);
    assert_eq!(rt; found, TABLE);
    assert_eq!(rt; work, [step(1, 1), step(2, 2), USED]);
    assert_eq!(rt; table, [USED, step(3, 3), step(4, 4), step(5, 5), USED]);
    let found = write_lasso(&CYCLE, NO_WORD, 1, &mut work[..2], &mut table);
    assert_eq!(rt; found, FULL);
    assert_eq!(rt; &table[2..], [step(4, 4), step(5, 5), USED].as_slice());
    Ok(())
}

// A node that is not marked, one on no cycle, one that is not reached, and a number that is no node.
#[test]
fn none(rt: HostRuntime) -> Result<(), Fail> {
    let heap = rt.alloc();
    let rows = [0b1, 0b10];
    let apart = plain(1, 0b10, &rows);
    for (map, node) in [(CYCLE, 2), (CYCLE, 3), (apart, 1), (apart, 64)] {
        assert_eq!(rt; written(heap, &map, node, 4, 8)?, Ok(None), "{node}");
    }
    Ok(())
}

// The lasso passes the node that is named, where others have shorter ones.
#[test]
fn named(rt: HostRuntime) -> Result<(), Fail> {
    let rows = [0b11, 0b110, 0b1];
    let map = plain(0b1, 0b111, &rows);
    for (node, found) in [(0, lasso(1, 0)), (1, lasso(2, 1)), (2, lasso(5, 2))] {
        assert_eq!(rt; written(rt.alloc(), &map, node, 3, 6)?, found, "{node}");
    }
    Ok(())
}
