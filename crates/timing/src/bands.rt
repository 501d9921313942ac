// A map of any number of nodes, of which each leads to as many: the least is found without a search.
ghost use Rattle.timing.specs.Bands.{band, band_bounded};

use graph::Map;
use lasso::Word;

// The nodes stand in a row, and each leads to as many after it as it reaches, and to those after it that are in the tail,
// the last nodes of the row. Where the row wraps, the last ones lead on to the first. 0 is the start, and every third node
// may be marked. There is one letter.
#[derive(Clone, Copy)]
pub struct Band {
    pub nodes: u32,
    pub reach: u32,
    pub tail: u32,
    pub wraps: bool,
    pub marked: bool,
}

impl Map for Band {
    ghost graph = { λ m word stem. band m.nodes m.reach m.tail m.wraps m.marked };

    ghost bounds = { λ m word stem. band_bounded m.nodes m.reach m.tail m.wraps m.marked };

    fn letters(&self, word: Word<'_>) -> u8 {
        1
    }

    fn is_node(&self, word: Word<'_>, v: u64) -> bool {
        v < self.nodes as u64
    }

    fn is_start(&self, word: Word<'_>, v: u64) -> bool {
        v == 0 && v < self.nodes as u64
    }

    fn is_marked(&self, word: Word<'_>, v: u64) -> bool {
        v < self.nodes as u64 && self.marked && v % 3 == 0
    }

    fn least_start(&self, word: Word<'_>, from: u64) -> Option<u64> {
        (from == 0 && self.nodes > 0).then_some(0)
    }

    fn least_next(&self, word: Word<'_>, v: u64, letter: u8, from: u64) -> Option<u64> {
        // a node that v leads to around the end stands before all others
        let n = self.nodes as u64;
        if v >= n || letter > 0 || from >= n {
            return None;
        }
        let last = v + self.reach as u64;
        if self.wraps && from + n <= last {
            return Some(from);
        }
        let next = from.max(v + 1);
        if next >= n {
            return None;
        }
        if next <= last {
            return Some(next);
        }
        let far = next.max(n.saturating_sub(self.tail as u64));
        (far < n).then_some(far)
    }
}
