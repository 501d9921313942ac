// Nodes that are not reached, and numbers that are no nodes. The duty and the rule are a state that leads to itself, of which the
// duty's alone is marked.
use crate::expected::{Row, map_of, no_nodes, rows, tells};
use samples::{marked, node, unmarked};
use std::test::Fail;

// The state without a rank, which has none afterwards, and those whose owed set or turn differs.
const UNREACHED: &[Row] = rows![
    (0: [-]) => [(0: [-] turn)];
    (0: [-] turn) => [(0: [-])];
    (0: [0]) => [(0: [0] owed 0b1 turn)];
    (0: [0] turn) => [(0: [0] owed 0b1)];
    (0: [2] turn) => [(0: [0] owed 0b1), (0: [1]), (0: [2] owed 0b1)];
    (0: [2] owed 0b1) => [(0: [0] owed 0b1 turn), (0: [1] turn), (0: [2] owed 0b1 turn)];
];

#[test]
fn unreached(rt: HostRuntime) -> Result<(), Fail> {
    let map = map_of(marked()?, unmarked()?)?;
    let marked = [node!(0: [-] turn), node!(0: [0] turn), node!(0: [2] turn)];
    tells(&rt, &map, UNREACHED, &marked);
    Ok(())
}

// A number by hand: 31, 32 for the turn, 64 times the owed set, which is 33, and 4,096 times the digits 13, 0, 6, 1, 12 and 3 of the
// ranks, the first the lowest: 13 + 6 * 256 + 4,096 + 12 * 65,536 + 3 * 1,048,576.
#[test]
fn parts(rt: HostRuntime) {
    let largest = node!(31: [12 - 5 0 11 2] owed 0b100001 turn);
    assert_eq!(rt; largest.number(), 16_129_251_455);
    assert_eq!(rt; node!(0: [2]).number(), 12288);
}

// In turn: an odd rank that is owed, no rank that is owed, another state of the duty, a second state of the rule, a rank above
// 2, a state owed that the rule does not have, and bits beyond all parts.
#[test]
fn no_node(rt: HostRuntime) -> Result<(), Fail> {
    let map = map_of(marked()?, unmarked()?)?;
    let nodes = [
        node!(0: [1] owed 0b1),
        node!(0: [-] owed 0b1 turn),
        node!(1: [2]),
        node!(31: [2]),
        node!(0: [2 0]),
        node!(0: [3]),
        node!(0: [14]),
        node!(0: [2] owed 0b10),
        node!(0: [2] owed 0b100000),
    ];
    no_nodes(&rt, &map, &nodes.map(|node| node.number()));
    let start = node!(0: [2]).number();
    no_nodes(&rt, &map, &[start | 1 << 36, start | 1 << 63, u64::MAX]);
    Ok(())
}
