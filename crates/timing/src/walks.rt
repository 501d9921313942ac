// A walk over the edges of a map, without a search.
use graph::Map;
use lasso::NO_WORD;
use records::Record;

// The number of edges with this letter that leave the node. Each is found by a question, and one more finds that there are no
// others.
fn count_successors<M: Map>(map: &M, node: u64, letter: u8) -> u64 {
    let mut from = 0;
    for count in 0..u64::MAX {
        match map.least_next(NO_WORD, node, letter, from) {
            Some(next) => from = next.saturating_add(1),
            None => return count,
        }
    }
    u64::MAX
}

// The number of edges that leave the nodes of the records.
pub(crate) fn count_edges<M: Map>(map: &M, nodes: &[Record]) -> u64 {
    let mut edges = 0u64;
    for record in nodes {
        for letter in 0..map.letters(NO_WORD) {
            edges = edges.saturating_add(count_successors(map, record.node, letter));
        }
    }
    edges
}
