// The graph that a map answers for, which is stored nowhere.
ghost use Rattle.std.specs.Prelude.{◌≡◌, true, Some, Decides};
ghost use Rattle.numbers.specs.Least.{Least};

use crate::Map;
use lasso::Word;

// A map, and the word that each question to it is handed.
#[derive_where(Clone, Copy)]
pub struct ImplicitGraph<'a, M> {
    pub map: &'a M,
    pub word: Word<'a>,
}

impl<'a, M: Map> ImplicitGraph<'a, M> {
    ghost use Rattle.graph.specs.Implicit.{graph_of, among};

    pub fn letters(&self) -> u8
        ensures { result ≡ (graph_of M.Map.graph self.now).letters }
    {
        self.map.letters(self.word)
    }

    pub fn is_node(&self, v: u64) -> bool
        ensures { result ≡ (graph_of M.Map.graph self.now).node v }
    {
        self.map.is_node(self.word, v)
    }

    pub fn is_start(&self, v: u64) -> bool
        ensures { result ≡ (graph_of M.Map.graph self.now).start v }
    {
        self.map.is_start(self.word, v)
    }

    pub fn is_marked(&self, v: u64) -> bool
        ensures { result ≡ (graph_of M.Map.graph self.now).marked v }
    {
        self.map.is_marked(self.word, v)
    }

    // Does an edge with this letter lead from one node to the other?
    pub fn is_edge(&self, v: u64, letter: u8, w: u64) -> bool
        ensures { Decides result ((graph_of M.Map.graph self.now).edge v letter w ≡ true) }
    {
        self.least_next(v, letter, w) == Some(w)
    }

    // The least node not below `from` that an edge with this letter leads to.
    pub fn least_next(&self, v: u64, letter: u8, from: u64) -> Option<u64>
        ensures { Least ((graph_of M.Map.graph self.now).edge v letter) from result }
    {
        self.map.least_next(self.word, v, letter, from)
    }

    // The least of these nodes that is not below `from`.
    fn least(&self, nodes: Nodes, from: u64) -> Option<u64>
        ensures { Least (among (graph_of M.Map.graph self.now) nodes) from result }
    {
        match nodes {
            Nodes::Starts => self.map.least_start(self.word, from),
            Nodes::Successors(v, letter) => self.least_next(v, letter, from),
        }
    }

    // These nodes, in rising order.
    pub fn rising(&self, nodes: Nodes) -> Rising<'a, M>
        ensures graph { result.graph ≡ self.now }
        ensures nodes { result.nodes ≡ nodes }
        ensures from { result.from ≡ Some 0 }
    {
        Rising {
            graph: *self,
            nodes,
            from: Some(0),
        }
    }
}

// Which nodes are asked for: the starts, or those that edges with a letter lead to from a node. It is not an Option, whose
// None would say nothing of starts, and not a closure, since what the iterator gives is so a fact of the graph alone.
#[derive(Clone, Copy)]
pub enum Nodes {
    Starts,
    Successors(u64, u8),
}

// Nodes in rising order.
#[derive_where(Clone, Copy)]
pub struct Rising<'a, M> {
    graph: ImplicitGraph<'a, M>,
    nodes: Nodes,
    // the next one is not below this number, and there is none if there is no number
    from: Option<u64>,
}

impl<'a, M: Map> Iterator for Rising<'a, M> {
    type Item = u64;

    ghost use Rattle.graph.specs.Ascending.{Rises, numbers_from};

    ghost next_gives = { Rises M.Map.graph };

    ghost remaining = { λ s. numbers_from s.from };

    fn next(&mut self) -> Option<u64> {
        let from = self.from?;
        let next = self.graph.least(self.nodes, from)?;
        self.from = next.checked_add(1);
        Some(next)
    }
}
