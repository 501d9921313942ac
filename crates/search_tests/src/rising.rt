// The starts, and the nodes that edges lead to, each once and in rising order.
use crate::expected::plain;
use graph::{ImplicitGraph, Map, Nodes};
use lasso::NO_WORD;
use samples::Ends;
use std::process::Abort;

// These come, and then no more.
fn come<M: Map>(rt: &impl Abort, map: &M, nodes: Nodes, expected: &[u64]) {
    let word = NO_WORD;
    let mut rising = ImplicitGraph { map, word }.rising(nodes);
    for node in expected {
        assert_eq!(rt; rising.next(), Some(*node));
    }
    assert_eq!(rt; rising.next(), None);
    assert_eq!(rt; rising.next(), None);
}

// The starts; then node 2, which leads to 0, to itself and to 63, by the one letter. Behind the greatest number there is no other.
#[test]
fn nodes(rt: HostRuntime) {
    come(&rt, &plain(0b1010_0001, 0, &[]), Nodes::Starts, &[0, 5, 7]);
    come(&rt, &plain(0, 0, &[0b1]), Nodes::Starts, &[]);
    let map = plain(0b1, 0, &[0b10, 0, 1 << 63 | 0b101]);
    come(&rt, &map, Nodes::Successors(2, 0), &[0, 2, 63]);
    come(&rt, &map, Nodes::Successors(1, 0), &[]);
    come(&rt, &map, Nodes::Successors(2, 1), &[]);
    let ends = Ends {
        loops: true,
        marked: false,
    };
    come(&rt, &ends, Nodes::Starts, &[0, u64::MAX]);
    come(&rt, &ends, Nodes::Successors(u64::MAX, 1), &[u64::MAX]);
    come(&rt, &ends, Nodes::Successors(u64::MAX, 2), &[]);
}

// Node 2 is a marked one that leads to itself and to 63, and no start.
#[test]
fn questions(rt: HostRuntime) {
    let map = plain(0b1, 0b100, &[0b10, 0, 1 << 63 | 0b100]);
    let graph = ImplicitGraph {
        map: &map,
        word: NO_WORD,
    };
    assert_eq!(rt; graph.letters(), 1);
    assert!(rt; graph.is_node(2) && graph.is_marked(2) && !graph.is_start(2));
    assert!(rt; graph.is_node(0) && graph.is_start(0) && !graph.is_marked(0));
    assert!(rt; graph.is_edge(2, 0, 2) && graph.is_edge(2, 0, 63));
    assert!(rt; !graph.is_edge(2, 0, 1) && !graph.is_edge(2, 1, 2) && !graph.is_edge(1, 0, 2));
    assert_eq!(rt; graph.least_next(2, 0, 2), Some(2));
    assert_eq!(rt; graph.least_next(2, 0, 3), Some(63));
    assert_eq!(rt; graph.least_next(2, 0, 64), None);
}
