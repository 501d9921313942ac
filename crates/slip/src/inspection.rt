// Which rule a slip breaks first.
ghost use Rattle.std.specs.Prelude.{◌≡◌, ℕ, ◌<◌, ◌≤◌, true, length, Decides};
ghost use Rattle.graph.specs.Implicit.{graph_of, among};
ghost use Rattle.lasso.specs.Positions.{after};
ghost use Rattle.slip.specs.Numbered.{keep_number, break_number};
ghost use Rattle.records.specs.Tables.{node_at};
ghost use Rattle.slip.specs.Asked.{Within, Held, limit, MeetsKeep, MeetsBreak, Lowest, LowestAt, StandsAt};
ghost use Rattle.slip.specs.Certificates.{content};
ghost use Rattle.slip.specs.Rules.{BreachTold};

use crate::kinds::{Breach, BreakRule, KeepRule, Kind, Rule};
use crate::slips::Slip;
use graph::{ImplicitGraph, Map, Nodes};
use lasso::{Lasso, Word};
use records::Record;

// Is a measure below the limit, if there is one?
fn is_within(measure: u32, limit: Option<u64>) -> bool
    ensures { Decides result (Within limit measure) }
{
    match limit {
        Some(limit) => u64::from(measure) < limit,
        None => true,
    }
}

// A slip, and the graph that it is inspected over.
#[derive_where(Clone, Copy)]
pub(crate) struct Inspection<'a, M> {
    graph: ImplicitGraph<'a, M>,
    slip: Slip<'a>,
}

impl<'a, M: Map> Inspection<'a, M> {
    // Has a record this node, with a measure below the limit, if there is one? A slip has no index of its nodes: this goes
    // through the records, and is the only function that does so to find a node.
    fn is_held(&self, node: u64, limit: Option<u64>) -> bool
        ensures { Decides result (Held self.now.slip.records.now limit node) }
    {
        self.slip.records.iter().any(|entry| entry.node == node && is_within(entry.measure, limit))
    }

    // Is each of these nodes held, with a measure below the limit, if there is one?
    fn are_held(&self, nodes: Nodes, limit: Option<u64>) -> bool
        ensures { Decides result ((v : ℕ) → among (graph_of M.Map.graph self.now.graph) nodes v ≡ true → Held self.now.slip.records.now limit v) }
    {
        for node in self.graph.rising(nodes) {
            if !self.is_held(node, limit) {
                return false;
            }
        }
        true
    }

    // What the measures behind a record's edges are below.
    fn limit(&self, entry: Record) -> u64
        ensures { result ≡ limit ((graph_of M.Map.graph self.now.graph).marked entry.node) entry.measure }
    {
        let measure = u64::from(entry.measure);
        if self.graph.is_marked(entry.node) {
            measure
        } else {
            measure + 1
        }
    }

    // Is each node held to which an edge leads from a node, by any letter?
    fn are_successors_held(&self, node: u64, limit: Option<u64>) -> bool
        ensures { Decides result ((l : ℕ) → l < (graph_of M.Map.graph self.now.graph).letters → (v : ℕ) → (graph_of M.Map.graph self.now.graph).edge node l v ≡ true → Held self.now.slip.records.now limit v) }
    {
        for letter in 0..self.graph.letters() {
            if !self.are_held(Nodes::Successors(node, letter), limit) {
                return false;
            }
        }
        true
    }

    // Has a record of a keep slip a node, and letter 0?
    fn meets_keep_node(&self, entry: Record) -> bool
        ensures { (place : ℕ) → StandsAt self.now.slip.records.now place entry → Decides result (MeetsKeep M.Map.graph self.now place KeepRule.Node) }
    {
        self.graph.is_node(entry.node) && entry.letter == 0
    }

    // Does each successor of a record's node have a record, with a measure that falls where it should?
    fn meets_keep_next(&self, entry: Record) -> bool
        ensures { (place : ℕ) → StandsAt self.now.slip.records.now place entry → Decides result (MeetsKeep M.Map.graph self.now place KeepRule.Next) }
    {
        self.are_successors_held(entry.node, Some(self.limit(entry)))
    }

    // The first rule that a record of a keep slip breaks.
    fn keep_breach(&self, place: usize, entry: Record) -> Option<KeepRule>
        requires { StandsAt self.now.slip.records.now place entry }
        ensures { Lowest keep_number (MeetsKeep M.Map.graph self.now place) result }
    {
        if !self.meets_keep_node(entry) {
            Some(KeepRule::Node)
        } else if !self.meets_keep_next(entry) {
            Some(KeepRule::Next)
        } else {
            None
        }
    }

    // The rule that the records of a keep slip break together.
    fn keep_end_breach(&self) -> Option<KeepRule>
        ensures { Lowest keep_number (MeetsKeep M.Map.graph self.now (length self.now.slip.records.now)) result }
    {
        if self.are_held(Nodes::Starts, None) {
            None
        } else {
            Some(KeepRule::Starts)
        }
    }

    // Has a record of a break slip a node, a letter of the graph, and measure 0?
    fn meets_break_node(&self, entry: Record) -> bool
        ensures { (place : ℕ) → StandsAt self.now.slip.records.now place entry → Decides result (MeetsBreak M.Map.graph self.now place BreakRule.Node) }
    {
        self.graph.is_node(entry.node) && entry.letter < self.graph.letters() && entry.measure == 0
    }

    // Has the record a start, if it is the first?
    fn meets_break_start(&self, place: usize, entry: Record) -> bool
        requires { StandsAt self.now.slip.records.now place entry }
        ensures { Decides result (MeetsBreak M.Map.graph self.now place BreakRule.Start) }
    {
        place > 0 || self.graph.is_start(entry.node)
    }

    // The place after a place, in the lasso that the records of a break slip are.
    fn after(&self, place: usize) -> usize
        requires { self.now.slip.stem < length self.now.slip.records.now }
        ensures is { result ≡ after (length self.now.slip.records.now) self.now.slip.stem place }
        ensures below { result < length self.now.slip.records.now }
    {
        let lasso = Lasso {
            elements: self.slip.records,
            stem: self.slip.stem,
        };
        lasso.after(place).unwrap()
    }

    // Does an edge lead from a record's node to that of the record that follows?
    fn meets_break_next(&self, place: usize, entry: Record) -> bool
        requires { StandsAt self.now.slip.records.now place entry × (self.now.slip.stem < length self.now.slip.records.now) }
        ensures { Decides result (MeetsBreak M.Map.graph self.now place BreakRule.Next) }
    {
        let next = self.slip.records[self.after(place)];
        self.graph.is_edge(entry.node, entry.letter, next.node)
    }

    // The first rule that a record of a break slip breaks.
    fn break_breach(&self, place: usize, entry: Record) -> Option<BreakRule>
        requires { StandsAt self.now.slip.records.now place entry × (self.now.slip.stem < length self.now.slip.records.now) }
        ensures { Lowest break_number (MeetsBreak M.Map.graph self.now place) result }
    {
        if !self.meets_break_node(entry) {
            Some(BreakRule::Node)
        } else if !self.meets_break_start(place, entry) {
            Some(BreakRule::Start)
        } else if !self.meets_break_next(place, entry) {
            Some(BreakRule::Next)
        } else {
            None
        }
    }

    // Has one of these records a marked node?
    fn has_mark(&self, records: &[Record]) -> bool
        ensures { Decides result ((k : ℕ) × (k < length records.now) × ((graph_of M.Map.graph self.now.graph).marked (node_at records.now k) ≡ true)) }
    {
        records.iter().any(|entry| self.graph.is_marked(entry.node))
    }

    // Has a record a marked node, at this place or behind it?
    fn has_mark_from(&self, place: usize) -> bool
        requires { place ≤ length self.now.slip.records.now }
        ensures { Decides result ((k : ℕ) × (place ≤ k) × (k < length self.now.slip.records.now) × ((graph_of M.Map.graph self.now.graph).marked (node_at self.now.slip.records.now k) ≡ true)) }
    {
        self.has_mark(&self.slip.records[place..])
    }

    // The rule that the records of a break slip break together.
    fn break_end_breach(&self) -> Option<BreakRule>
        requires { self.now.slip.stem < length self.now.slip.records.now }
        ensures { Lowest break_number (MeetsBreak M.Map.graph self.now (length self.now.slip.records.now)) result }
    {
        if self.has_mark_from(self.slip.stem) {
            None
        } else {
            Some(BreakRule::Mark)
        }
    }

    // The first rule that a record breaks.
    fn record_breach(&self, place: usize, entry: Record) -> Option<Rule>
        requires { StandsAt self.now.slip.records.now place entry }
        ensures { LowestAt (graph_of M.Map.graph self.now.graph) (content self.now.slip) place result }
    {
        match self.slip.kind {
            Kind::Keep => self.keep_breach(place, entry).map(Rule::Keep),
            Kind::Break => self.break_breach(place, entry).map(Rule::Break),
        }
    }

    // The first rule that the records break together.
    fn end_breach(&self) -> Option<Rule>
        ensures { LowestAt (graph_of M.Map.graph self.now.graph) (content self.now.slip) (length self.now.slip.records.now) result }
    {
        match self.slip.kind {
            Kind::Keep => self.keep_end_breach().map(Rule::Keep),
            Kind::Break => self.break_end_breach().map(Rule::Break),
        }
    }
}

impl<'a> Slip<'a> {
    // The first rule that it breaks: the lowest place first, and there the lowest rule.
    pub fn first_breach<M: Map>(&self, map: &M, word: Word<'_>) -> Option<Breach>
        ensures { BreachTold (M.Map.graph map.now word.entry.elements.now word.entry.stem) (content self.now) result }
    {
        let inspection = Inspection {
            graph: ImplicitGraph { map, word },
            slip: *self,
        };
        for (place, &entry) in self.records.iter().enumerate() {
            if let Some(rule) = inspection.record_breach(place, entry) {
                return Some(Breach { rule, place });
            }
        }
        let rule = inspection.end_breach()?;
        Some(Breach {
            rule,
            place: self.records.len(),
        })
    }
}
