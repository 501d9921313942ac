// The search for a path to a node, breadth first: the nodes that were met stand in a queue, in the order in which they were met.
ghost use Rattle.std.specs.Prelude.{◌≡◌, suc, ◌≤◌, ◌<◌, true, length, MatchOption, MatchResult};
ghost use Rattle.graph.specs.Walks.{Edge};
ghost use Rattle.records.specs.Tables.{SameTable, node_at};
ghost use Rattle.graph.specs.Implicit.{graph_of, among};
ghost use Rattle.paths.specs.Queues.{graph_for, Leads, IsQueued, Took, Added, NoRoom, Leaves, HaltedFor, Begun, Missed};

use graph::{ImplicitGraph, Map, Nodes};
use records::{Record, WorkTable};

// Where a path begins: at any start, or at one node.
#[derive(Clone, Copy)]
pub(crate) enum Origin {
    Starts,
    Node(u64),
}

// A path that is looked for: from its origin to a node. From one node it has an edge at least.
#[derive_where(Clone, Copy)]
pub(crate) struct PathQuery<'a, M> {
    pub(crate) graph: ImplicitGraph<'a, M>,
    pub(crate) from: Origin,
    pub(crate) to: u64,
}

impl<'a, M> PathQuery<'a, M> {
    // From any start to a node.
    pub(crate) fn to_node(graph: &ImplicitGraph<'a, M>, node: u64) -> PathQuery<'a, M>
        ensures { result ≡ record { graph = graph.now; from = Origin.Starts; to = node } }
    {
        PathQuery {
            graph: *graph,
            from: Origin::Starts,
            to: node,
        }
    }

    // From its node back to it.
    pub(crate) fn back(&self) -> PathQuery<'a, M>
        ensures { result ≡ record { graph = self.now.graph; from = Origin.Node self.now.to; to = self.now.to } }
    {
        PathQuery {
            graph: self.graph,
            from: Origin::Node(self.to),
            to: self.to,
        }
    }
}

// Why a search ends before it has seen all that can be reached.
#[derive(Clone, Copy)]
pub(crate) enum Stop {
    // there is no record for one node more
    Full,
    // the record that the node which is looked for would have
    Found(Record),
}

// The place of the record before one on the way to its node, or none where a path begins.
pub(crate) fn before(met: Record) -> Option<usize>
    ensures { MatchOption result (met.measure ≡ 0) (λ place. met.measure ≡ suc place) }
{
    (met.measure as usize).checked_sub(1)
}

// The nodes that were met, each once. A record has the letter of the edge on which its node was met, and its measure is one more
// than the place of the node from which that edge leads, or 0 where paths begin.
#[derive(Drop)]
pub(crate) struct Queue<'w> {
    // its stack is the queue, and nothing is done
    pub(crate) table: WorkTable<'w>,
    ghost few: { length table.work.now ≤ 65536 },
    ghost none_done: { table.top ≡ length table.work.now },
}

impl<'w> Queue<'w> {
    pub(crate) fn new(work: &'w mut [Record]) -> Queue<'w>
        requires { length work.old ≤ 65536 }
        ensures table { result.table.work.now ≡ work.old }
        ensures empty { result.table.size ≡ 0 }
    {
        Queue {
            table: WorkTable::new(work),
        }
    }

    // Adds a record, unless the queue has its node.
    fn add(&mut self, added: Record) -> Result<(), Stop>
        ensures same_table { SameTable self.old.table.work self.new.table.work }
        ensures added { MatchResult result (λ _. Added added self.old.table.size self.old.table.work.now self.new.table.size self.new.table.work.now) (NoRoom added self.old.table.size self.old.table.work.now) }
    {
        if self.table.place(added.node).is_some() {
            return Ok(());
        }
        match self.table.push(added) {
            Ok(()) => Ok(()),
            Err(_) => Err(Stop::Full),
        }
    }

    // Adds each of these nodes, with the letter and the measure of `by`, until one is the node that is looked for: that one is never
    // added, but where paths begin at it.
    fn add_all<M: Map>(
        &mut self,
        query: &PathQuery<'_, M>,
        nodes: Nodes,
        by: Record,
    ) -> Result<(), Stop>
        requires queued { IsQueued (graph_for M.Map.graph query.now) self.old.table.size self.old.table.work.now }
        requires leads { Leads (graph_for M.Map.graph query.now) (among (graph_of M.Map.graph query.now.graph) nodes) by self.old.table.size self.old.table.work.now }
        requires leaves { Leaves query.now.from by.measure }
        ensures same_table { SameTable self.old.table.work self.new.table.work }
        ensures added { Took M.Map.graph query.now (λ v. among (graph_of M.Map.graph query.now.graph) nodes v ≡ true) self.old.table.size self.old.table.work.now self.new.table.size self.new.table.work.now result }
    {
        for node in query.graph.rising(nodes) {
            let record = Record { node, ..by };
            if node == query.to {
                return Err(Stop::Found(record));
            }
            self.add(record)?;
        }
        Ok(())
    }

    // Adds the nodes that edges lead to from the node at a place.
    fn expand<M: Map>(&mut self, query: &PathQuery<'_, M>, place: usize) -> Result<(), Stop>
        requires inside { place < self.old.table.size }
        requires queued { IsQueued (graph_for M.Map.graph query.now) self.old.table.size self.old.table.work.now }
        ensures same_table { SameTable self.old.table.work self.new.table.work }
        ensures added { Took M.Map.graph query.now (Edge (graph_of M.Map.graph query.now.graph) (node_at self.old.table.work.now place)) self.old.table.size self.old.table.work.now self.new.table.size self.new.table.work.now result }
    {
        let node = self.table.record(place).node;
        for letter in 0..query.graph.letters() {
            let by = Record {
                node,
                letter,
                measure: place as u32 + 1,
            };
            self.add_all(query, Nodes::Successors(node, letter), by)?;
        }
        Ok(())
    }

    // Adds the nodes where paths begin.
    fn begin<M: Map>(&mut self, query: &PathQuery<'_, M>) -> Result<(), Stop>
        requires empty { self.old.table.size ≡ 0 }
        ensures same_table { SameTable self.old.table.work self.new.table.work }
        ensures begun { MatchResult result (λ _. Begun (graph_for M.Map.graph query.now) query.now.from query.now.to self.new.table.size self.new.table.work.now) (HaltedFor M.Map.graph query.now self.new.table.size self.new.table.work.now) }
    {
        match query.from {
            Origin::Starts => self.add_all(query, Nodes::Starts, Record::default()),
            Origin::Node(node) => self.add(Record {
                node,
                ..Record::default()
            }),
        }
    }

    // Searches until the node that is looked for is met, or nothing is left to be met.
    pub(crate) fn search<M: Map>(&mut self, query: &PathQuery<'_, M>) -> Result<(), Stop>
        requires empty { self.old.table.size ≡ 0 }
        ensures same_table { SameTable self.old.table.work self.new.table.work }
        ensures searched { MatchResult result (λ _. Missed (graph_for M.Map.graph query.now) query.now.from query.now.to) (HaltedFor M.Map.graph query.now self.new.table.size self.new.table.work.now) }
    {
        self.begin(query)?;
        let mut place = 0;
        while place < self.table.size() {
            self.expand(query, place)?;
            place += 1;
        }
        Ok(())
    }
}
