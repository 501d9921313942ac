// A graph of 64 nodes, told as sets of them, as a map. It is the same for every word.
ghost use Rattle.std.specs.Prelude.{◌≡◌, ◌&&◌, nat_lt};
ghost use Rattle.numbers.specs.Bits.{bit};
ghost use Rattle.samples.specs.BitGraphs.{bit_graph, bit_graph_bounded};

use graph::Map;
use lasso::Word;

// Node v is bit v of a set. Row v * letters + letter is the set that edges with this letter lead to from v; a row that is
// not there is empty.
#[derive(Clone, Copy)]
pub struct BitGraph<'a> {
    pub letters: u8,
    pub starts: u64,
    pub marks: u64,
    pub rows: &'a [u64],
}

impl<'a> BitGraph<'a> {
    // Does an edge with this letter lead from v to w?
    fn has_edge(&self, v: u64, letter: u8, w: u64) -> bool
        ensures { result ≡ (bit_graph self.now.letters self.now.starts self.now.marks self.now.rows.now).edge v letter w }
    {
        if v >= 64 || letter >= self.letters {
            return false;
        }
        let at = v as usize * self.letters as usize + letter as usize;
        has(self.rows.get(at).copied().unwrap_or(0), w)
    }
}

impl<'a> Map for BitGraph<'a> {
    ghost graph = { λ m word stem. bit_graph m.letters m.starts m.marks m.rows.now };

    ghost bounds = { λ m word stem. bit_graph_bounded m.letters m.starts m.marks m.rows.now };

    fn letters(&self, word: Word<'_>) -> u8 {
        self.letters
    }

    fn is_node(&self, word: Word<'_>, v: u64) -> bool {
        v < 64
    }

    fn is_start(&self, word: Word<'_>, v: u64) -> bool {
        has(self.starts, v)
    }

    fn is_marked(&self, word: Word<'_>, v: u64) -> bool {
        has(self.marks, v)
    }

    fn least_start(&self, word: Word<'_>, from: u64) -> Option<u64> {
        (from..64).find(|v| self.is_start(word, *v))
    }

    fn least_next(&self, word: Word<'_>, v: u64, letter: u8, from: u64) -> Option<u64> {
        (from..64).find(|w| self.has_edge(v, letter, *w))
    }
}

// Is v a node, and a member of the set?
fn has(set: u64, v: u64) -> bool
    ensures { result ≡ nat_lt v 64 && bit set v }
{
    v < 64 && (set >> v) % 2 == 1
}
