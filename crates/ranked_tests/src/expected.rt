// What a map is expected to answer, and what a search of it is to find.
use chart::Chart;
use graph::Map;
use lasso::NO_WORD;
use ranked::{Instance, InstanceFault, RankedMap};
use records::Record;
use samples::{Node, USED};
use search::survey;
use std::process::Abort;
use std::test::Fail;

// The map of a duty and a rule.
pub(crate) fn map_of<D: Chart + Drop, R: Chart + Drop>(
    duty: D,
    rule: R,
) -> Result<RankedMap, InstanceFault> {
    Ok(RankedMap::new(&Instance::new(duty, rule)?))
}

// A node, and its successors by each letter.
pub(crate) type Row = (Node, &'static [&'static [Node]]);

// `rows![node => [next, ..] [next, ..]; ..]`: nodes as `node!` writes them, and their successors by each letter.
macro_rules! rows {
    ($(($($node:tt)*) => $([$(($($next:tt)*)),*])*;)*) => {
        &[$((samples::node!($($node)*), &[$(&[$(samples::node!($($next)*)),*]),*])),*]
    };
}

pub(crate) use rows;

// What can be reached of a ranked graph.
pub(crate) struct Whole {
    pub(crate) starts: &'static [Node],
    pub(crate) rows: &'static [Row],
    pub(crate) marked: &'static [Node],
    // those marked nodes that lie on a cycle
    pub(crate) witnesses: &'static [Node],
    // if there are none, the most marked nodes on a walk from each node
    pub(crate) measures: &'static [u32],
}

// The map answers so, and so does a search of it.
pub(crate) fn holds<M: Map>(rt: &impl Abort, map: &M, whole: &Whole) -> Result<(), Fail> {
    begins(rt, map, whole.starts);
    tells(rt, map, whole.rows, whole.marked);
    let mut work = [USED; 30];
    let found = survey(map, NO_WORD, &mut work)?;
    assert_eq!(rt; found.count, whole.rows.len());
    match found.witness {
        Some(witness) => assert!(rt;
            whole.witnesses.iter().any(|node| node.number() == witness),
            "another witness: {witness}"
        ),
        None => measured(rt, &work, whole),
    }
    Ok(())
}

// There is no witness, and a record of each node tells its measure.
fn measured(rt: &impl Abort, work: &[Record], whole: &Whole) {
    assert!(rt; whole.witnesses.is_empty(), "no witness");
    assert_eq!(rt; whole.measures.len(), whole.rows.len());
    for ((node, _), measure) in whole.rows.iter().zip(whole.measures) {
        let number = node.number();
        let told = work
            .iter()
            .take(whole.rows.len())
            .find(|record| record.node == number)
            .map(|record| record.measure);
        assert_eq!(rt; told, Some(*measure), "{number}");
    }
}

// These are the starts, in order.
pub(crate) fn begins<M: Map>(rt: &impl Abort, map: &M, starts: &[Node]) {
    let mut from = 0;
    for node in starts {
        let v = node.number();
        assert_eq!(rt; map.least_start(NO_WORD, from), Some(v), "from {from}");
        assert_eq!(rt; map.least_start(NO_WORD, v), Some(v));
        assert!(rt; map.is_start(NO_WORD, v), "{v}");
        from = v.saturating_add(1);
    }
    assert_eq!(rt; map.least_start(NO_WORD, from), None, "from {from}");
    assert_eq!(rt; map.least_start(NO_WORD, u64::MAX), None);
}

// These are the successors of the node by the letter, in order: each is the least from just above the one before, from just below
// itself, and from itself.
pub(crate) fn leads<M: Map>(rt: &impl Abort, map: &M, node: Node, letter: u8, next: &[Node]) {
    let v = node.number();
    let mut from = 0;
    for next in next {
        let w = next.number();
        for at in [from, w.saturating_sub(1).max(from), w] {
            assert_eq!(rt;
                map.least_next(NO_WORD, v, letter, at),
                Some(w),
                "{v} by {letter} from {at}"
            );
        }
        from = w.saturating_add(1);
    }
    for at in [from, u64::MAX] {
        assert_eq!(rt;
            map.least_next(NO_WORD, v, letter, at),
            None,
            "{v} by {letter} from {at}"
        );
    }
}

// These are nodes with these successors, and just those of them that are in the list are marked.
pub(crate) fn tells<M: Map>(rt: &impl Abort, map: &M, rows: &[Row], marked: &[Node]) {
    for (node, next) in rows {
        let v = node.number();
        assert!(rt; map.is_node(NO_WORD, v), "{v}");
        assert_eq!(rt; map.is_marked(NO_WORD, v), marked.contains(node), "{v}");
        for letter in 0..17u8 {
            let next = next.get(letter as usize).copied().unwrap_or(&[]);
            leads(rt, map, *node, letter, next);
        }
    }
}

// None of these numbers is a node, so none is a start, is marked, or leads anywhere.
pub(crate) fn no_nodes<M: Map>(rt: &impl Abort, map: &M, numbers: &[u64]) {
    for v in numbers {
        assert!(rt; !map.is_node(NO_WORD, *v), "{}", *v);
        assert!(rt; !map.is_start(NO_WORD, *v), "{}", *v);
        assert!(rt; !map.is_marked(NO_WORD, *v), "{}", *v);
        assert_eq!(rt; map.least_next(NO_WORD, *v, 0, 0), None, "{}", *v);
    }
}
