// What a search is expected to find. The order of the nodes is free.
use graph::Map;
use lasso::NO_WORD;
use records::Record;
use samples::{BitGraph, USED};
use search::survey;
use std::array;
use std::process::Abort;
use std::test::Fail;

// A map with one letter: set v of these is what node v leads to.
pub(crate) fn plain(starts: u64, marks: u64, rows: &[u64]) -> BitGraph<'_> {
    BitGraph {
        letters: 1,
        starts,
        marks,
        rows,
    }
}

// Each node leads to the one after it, and 63 to these.
pub(crate) fn in_a_row(last: u64) -> [u64; 64] {
    array::from_fn(|v| if v < 63 { 2 << v } else { last })
}

// The measure of a node among the first records. Their count is handed in beside the table, as an answer that a test is of and
// that may be wrong.
fn measure_of(work: &[Record], count: usize, node: u64) -> Option<u32> {
    work.iter()
        .take(count)
        .find(|record| record.node == node)
        .map(|record| record.measure)
}

// No marked node lies on a cycle, and these are the nodes with their measures.
pub(crate) fn measured<M: Map>(rt: &impl Abort, map: &M, nodes: &[(u64, u32)]) -> Result<(), Fail> {
    let mut work = [USED; 80];
    let found = survey(map, NO_WORD, &mut work)?;
    assert_eq!(rt; found.witness, None);
    assert_eq!(rt; found.count, nodes.len());
    for (node, measure) in nodes {
        assert_eq!(rt;
            measure_of(&work, found.count, *node),
            Some(*measure),
            "{}",
            *node
        );
    }
    Ok(())
}

// These are the nodes, and one of the witnesses is named.
pub(crate) fn witnessed<M: Map>(
    rt: &impl Abort,
    map: &M,
    nodes: &[u64],
    witnesses: &[u64],
) -> Result<(), Fail> {
    let mut work = [USED; 80];
    let found = survey(map, NO_WORD, &mut work)?;
    assert_eq!(rt; found.count, nodes.len());
    for node in nodes {
        assert!(rt;
            measure_of(&work, found.count, *node).is_some(),
            "{}",
            *node
        );
    }
    let witness = found.witness.ok_or_else(|| Fail::new("no witness"))?;
    assert!(rt;
        witnesses.contains(&witness),
        "another witness: {}",
        witness
    );
    Ok(())
}
