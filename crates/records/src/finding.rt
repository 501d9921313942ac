// Looking for a node among records.
ghost use Rattle.std.specs.Prelude.{◌≡◌, ◌<◌, length, MatchOption};
ghost use Rattle.records.specs.Tables.{node_at, At};

use crate::record::Record;

// The place of a node among records, which are looked at one by one.
#[inline(always)]
fn position(records: &[Record], node: u64) -> Option<usize>
    ensures { MatchOption result (At (node_at records.now) 0 (length records.now) node → ⊥) (λ i. (i < length records.now) × (node_at records.now i ≡ node)) }
{
    records.iter().position(|record| record.node == node)
}

// The place of a node among records. A search has no memory for a map from nodes to places: this goes through the records,
// and is the only function that does so to find a node. It goes by blocks of eight, since so many are compared without counting.
pub(crate) fn find(records: &[Record], node: u64) -> Option<usize>
    ensures { MatchOption result (At (node_at records.now) 0 (length records.now) node → ⊥) (λ i. (i < length records.now) × (node_at records.now i ≡ node)) }
{
    let blocks = records.len() / 8;
    for block in 0..blocks {
        let first = 8 * block;
        if let Some(i) = position(&records[first..first + 8], node) {
            return Some(first + i);
        }
    }
    let first = 8 * blocks;
    let i = position(&records[first..], node)?;
    Some(first + i)
}
