// Finite graphs behind one interface, which is all that the layers above see of them.
#![tactic(auto)]

mod implicit;

ghost use Rattle.std.specs.Prelude.{◌≡◌, ℕ, List};
ghost use Rattle.graph.specs.Graphs.{Graph, Bounded};
ghost use Rattle.numbers.specs.Least.{Least};

pub use implicit::{ImplicitGraph, Nodes, Rising};
use lasso::Word;

// A map is a finite graph that answers questions. Each question is also handed a word: a map may depend on it.
pub trait Map {
    // the graph for a word: for its letters and its stem, and not for the reference by which they are lent
    ghost graph: { Self → List ℕ → ℕ → Graph };

    // it keeps the bounds of graphs
    ghost bounds: { (m : Self) (word : List ℕ) (stem : ℕ) → Bounded (graph m word stem) };

    // The number of letters.
    fn letters(&self, word: Word<'_>) -> u8
        ensures { result ≡ (graph self.now word.entry.elements.now word.entry.stem).letters };

    // Is v a node?
    fn is_node(&self, word: Word<'_>, v: u64) -> bool
        ensures { result ≡ (graph self.now word.entry.elements.now word.entry.stem).node v };

    // Is v a start?
    fn is_start(&self, word: Word<'_>, v: u64) -> bool
        ensures { result ≡ (graph self.now word.entry.elements.now word.entry.stem).start v };

    // Is v marked?
    fn is_marked(&self, word: Word<'_>, v: u64) -> bool
        ensures { result ≡ (graph self.now word.entry.elements.now word.entry.stem).marked v };

    // The least start that is not below `from`.
    fn least_start(&self, word: Word<'_>, from: u64) -> Option<u64>
        ensures { Least (graph self.now word.entry.elements.now word.entry.stem).start from result };

    // The least node not below `from` that an edge with this letter leads to from v.
    fn least_next(&self, word: Word<'_>, v: u64, letter: u8, from: u64) -> Option<u64>
        ensures { Least ((graph self.now word.entry.elements.now word.entry.stem).edge v letter) from result };
}
