// What a finished component is worth: a marked node on a cycle, or the measure of its nodes.
ghost use Rattle.std.specs.Prelude.{◌≡◌, ◌+◌, ◌-◌, ◌<◌, true, ◌⊎◌, length, Some, None, Decides, MatchOption};
ghost use Rattle.graph.specs.Walks.{Edge};
ghost use Rattle.graph.specs.Implicit.{graph_of};
ghost use Rattle.records.specs.Tables.{node_at, measure_at};
ghost use Rattle.search.specs.Progress.{progress};
ghost use Rattle.search.specs.Trees.{Follows, Heavy};
ghost use Rattle.search.specs.Weights.{Weight, Apart, Unmarked, MarkedIn, Rooted, IsRooted, Assessment};

use crate::searches::Search;
use graph::{ImplicitGraph, Map, Nodes};

// Does a node lead to itself?
fn has_self<M: Map>(graph: &ImplicitGraph<'_, M>, node: u64) -> bool
    ensures { Decides result (Edge (graph_of M.Map.graph graph.now) node node) }
{
    (0..graph.letters()).any(|letter| graph.is_edge(node, letter, node))
}

impl<'w> Search<'w> {
    // The measure of a done node, or 0 for a node that is not done.
    fn measure_of(&self, node: u64) -> u32
        ensures { Weight self.now.table.top node self.now.table.work.now result }
    {
        match self.table.done(node) {
            Some(done) => done.measure,
            None => 0,
        }
    }

    // The greatest measure of a done node that a node leads to by a letter. That done places hold different nodes is asked of
    // the three that weigh and is not said by the type, which each move of a record would have to show.
    fn weigh_letter<M: Map>(&self, graph: &ImplicitGraph<'_, M>, node: u64, letter: u8) -> u32
        requires { Apart self.now.table.top self.now.table.work.now }
        ensures { Heavy (λ w. (graph_of M.Map.graph graph.now).edge node letter w ≡ true) self.now.table.top (length self.now.table.work.now) (node_at self.now.table.work.now) (measure_at self.now.table.work.now) result }
    {
        let mut best: u32 = 0;
        for next in graph.rising(Nodes::Successors(node, letter)) {
            best = best.max(self.measure_of(next));
        }
        best
    }

    // The greatest measure of a done node that a node leads to. As `map` with `max` this leaves its result open, and so it is a
    // loop, as are the two like it: the library's lemmas on chains want a function of the item, and a weight is told by `Heavy`.
    fn weigh_node<M: Map>(&self, graph: &ImplicitGraph<'_, M>, node: u64) -> u32
        requires { Apart self.now.table.top self.now.table.work.now }
        ensures { Heavy (Edge (graph_of M.Map.graph graph.now) node) self.now.table.top (length self.now.table.work.now) (node_at self.now.table.work.now) (measure_at self.now.table.work.now) result }
    {
        let mut best: u32 = 0;
        for letter in 0..graph.letters() {
            best = best.max(self.weigh_letter(graph, node, letter));
        }
        best
    }

    // The greatest measure of a done node that a place from `cur` on and below `size` leads to.
    fn weigh<M: Map>(&self, graph: &ImplicitGraph<'_, M>) -> u32
        requires { Apart self.now.table.top self.now.table.work.now }
        ensures { Heavy (Follows (graph_of M.Map.graph graph.now) (node_at self.now.table.work.now) self.now.cur self.now.table.size) self.now.table.top (length self.now.table.work.now) (node_at self.now.table.work.now) (measure_at self.now.table.work.now) result }
    {
        let mut best: u32 = 0;
        for record in self.table.stack_from(self.cur) {
            best = best.max(self.weigh_node(graph, record.node));
        }
        best
    }

    // A marked node of the component.
    fn first_marked<M: Map>(&self, graph: &ImplicitGraph<'_, M>) -> Option<u64>
        ensures { MatchOption result (Unmarked (graph_of M.Map.graph graph.now) self.now.cur self.now.table.size self.now.table.work.now) (MarkedIn (graph_of M.Map.graph graph.now) self.now.cur self.now.table.size self.now.table.work.now) }
    {
        self.table
            .stack_from(self.cur)
            .iter()
            .map(|record| record.node)
            .find(|node| graph.is_marked(*node))
    }

    // Are there several nodes in the component of a node, or does it lead to itself? Then a cycle passes it, since a
    // component is strongly connected.
    fn is_cyclic<M: Map>(&self, graph: &ImplicitGraph<'_, M>, node: u64) -> bool
        ensures { Decides result ((self.now.cur + 1 < self.now.table.size) ⊎ Edge (graph_of M.Map.graph graph.now) node node) }
    {
        self.table.size() - self.cur > 1 || has_self(graph, node)
    }

    // Assesses a component where no marked cycle is found yet. A marked node on a cycle is the error: no measure is owed then.
    fn assess_new<M: Map>(&self, graph: &ImplicitGraph<'_, M>) -> Result<u32, u64>
        requires { Rooted (graph_of M.Map.graph graph.now) self.now.table.size self.now.table.top self.now.cur None self.now.table.work.now }
        ensures { Assessment (graph_of M.Map.graph graph.now) self.now.table.size self.now.table.top self.now.cur None self.now.table.work.now result }
    {
        let Some(node) = self.first_marked(graph) else {
            return Ok(self.weigh(graph));
        };
        if self.is_cyclic(graph, node) {
            return Err(node);
        }
        Ok(self.weigh(graph) + 1)
    }

    // Assesses the component that the current place is the root of: the measure of each of its nodes, or else a marked
    // node on a cycle, once one is found.
    pub(crate) fn assess<M: Map>(&self, graph: &ImplicitGraph<'_, M>) -> Result<u32, u64>
        requires { IsRooted (graph_of M.Map.graph graph.now) (progress self.now) self.now.table.work.now }
        ensures { Assessment (graph_of M.Map.graph graph.now) self.now.table.size self.now.table.top self.now.cur self.now.found self.now.table.work.now result }
    {
        match self.found {
            Some(node) => Err(node),
            None => self.assess_new(graph),
        }
    }
}
