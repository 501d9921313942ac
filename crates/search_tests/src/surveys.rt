// Searches that find a marked node on a cycle, and those that find none: then each measure is the greatest number of marked nodes on
// a walk. Either way they collect every node.
ghost use Rattle.std.specs.Prelude.{◌<◌};

use crate::expected::{in_a_row, measured, plain, witnessed};
use samples::{BitGraph, Ends};
use std::array;
use std::test::Fail;

// From 0, which is marked, to the cycles of 1 and 2 and of 3 and 4. 2 and 3 are marked, then one of the two alone, then neither.
#[test]
fn two_cycles(rt: HostRuntime) -> Result<(), Fail> {
    let rows = [0b1010, 0b100, 0b10, 0b10000, 0b1000];
    let nodes = [0, 1, 2, 3, 4];
    witnessed(&rt, &plain(1, 0b1101, &rows), &nodes, &[2, 3])?;
    witnessed(&rt, &plain(1, 0b0101, &rows), &nodes, &[2])?;
    witnessed(&rt, &plain(1, 0b1001, &rows), &nodes, &[3])?;
    let none = [(0, 1), (1, 0), (2, 0), (3, 0), (4, 0)];
    measured(&rt, &plain(1, 0b0001, &rows), &none)
}

// 0 leads to 1, 1 to 2 and 4, 2 to 3, and 3 to 1; 4 leads to 0, so they are all on a cycle with 0. 5, to which 4 leads too, is on
// none.
#[test]
fn cycle_in_a_cycle(rt: HostRuntime) -> Result<(), Fail> {
    let rows = [0b10, 0b10100, 0b1000, 0b10, 0b100001];
    let nodes = [0, 1, 2, 3, 4, 5];
    witnessed(&rt, &plain(1, 0b101000, &rows), &nodes, &[3])?;
    witnessed(&rt, &plain(1, 0b110000, &rows), &nodes, &[4])?;
    let before = [(0, 1), (1, 1), (2, 1), (3, 1), (4, 1), (5, 1)];
    measured(&rt, &plain(1, 0b100000, &rows), &before)
}

// From 0 a long way by 1, 2 and 3 without a mark, and a short one by 4, which is marked, both to 5, which is too.
#[test]
fn longer_way(rt: HostRuntime) -> Result<(), Fail> {
    let rows = [0b010010, 0b100, 0b1000, 0b100000, 0b100000];
    let nodes = [(0, 2), (1, 1), (2, 1), (3, 1), (4, 2), (5, 1)];
    measured(&rt, &plain(0b1, 0b110000, &rows), &nodes)
}

// The cycle of 0 and 1, then 2, the cycle of 3 and 4, and 5. 2 and 5 are marked. The cycle of 6 and 7 leads to 0, and nothing to it.
#[test]
fn marks_between_cycles(rt: HostRuntime) -> Result<(), Fail> {
    let rows = [
        0b10, 0b101, 0b1000, 0b10000, 0b101000, 0b0, 0b10000001, 0b1000000,
    ];
    let nodes = [(0, 2), (1, 2), (2, 2), (3, 1), (4, 1), (5, 1)];
    measured(&rt, &plain(0b1, 0b11100100, &rows), &nodes)
}

// Starts that other starts lead to: 0 leads to 1, and 2 to 1 too; then 1 leads to 0, and 2 to 1. All are marked.
#[test]
fn several_starts(rt: HostRuntime) -> Result<(), Fail> {
    let first = [(0, 2), (1, 1), (2, 2)];
    measured(&rt, &plain(0b111, 0b111, &[0b10, 0b0, 0b10]), &first)?;
    let second = [(0, 1), (1, 2), (2, 3)];
    measured(&rt, &plain(0b111, 0b111, &[0b0, 0b1, 0b10]), &second)
}

// All 64 nodes in a row and marked; then in a cycle, of which 17 is marked.
#[test]
fn most_nodes(rt: HostRuntime) -> Result<(), Fail> {
    let falling: [(u64, u32); 64] = array::from_fn(
        |v|
            requires { v < 64 }
        { (v as u64, 64 - v as u32) },
    );
    measured(&rt, &plain(1, u64::MAX, &in_a_row(0)), &falling)?;
    let nodes: [u64; 64] = array::from_fn(|v| v as u64);
    witnessed(&rt, &plain(1, 1 << 17, &in_a_row(1)), &nodes, &[17])
}

// With no letter there is no edge. With 255 letters 0 leads to 1 by the last of them, or to itself.
#[test]
fn fewest_and_most_letters(rt: HostRuntime) -> Result<(), Fail> {
    let none = BitGraph {
        letters: 0,
        starts: 0b1,
        marks: 0b11,
        rows: &[0b11, 0b11],
    };
    measured(&rt, &none, &[(0, 1)])?;
    let mut rows = [0; 255];
    rows[254] = 0b10;
    let most = BitGraph {
        letters: 255,
        starts: 0b1,
        marks: 0b11,
        rows: &rows,
    };
    measured(&rt, &most, &[(0, 2), (1, 1)])?;
    let mut rows = [0; 255];
    rows[254] = 0b1;
    let round = BitGraph {
        rows: &rows,
        ..most
    };
    witnessed(&rt, &round, &[0], &[0])
}

// 2^64 - 1 is a node like any other.
#[test]
fn greatest_node(rt: HostRuntime) -> Result<(), Fail> {
    let row = Ends {
        loops: false,
        marked: true,
    };
    measured(&rt, &row, &[(0, 2), (u64::MAX, 1)])?;
    let round = Ends {
        loops: true,
        marked: true,
    };
    witnessed(&rt, &round, &[0, u64::MAX], &[u64::MAX])
}
