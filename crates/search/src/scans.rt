// Looking at the edges of the current place until one leads to a new node.
ghost use Rattle.std.specs.Prelude.{◌≡◌, ◌<◌, length};
ghost use Rattle.records.specs.Tables.{SameTable, letter_at};
ghost use Rattle.graph.specs.Implicit.{graph_of};
ghost use Rattle.search.specs.Progress.{progress};
ghost use Rattle.search.specs.Searches.{IsSearching, Looked, Scanned, Resumed, IsFurther};

use crate::searches::Search;
use graph::{ImplicitGraph, Map};

impl<'w> Search<'w> {
    // Where a place goes on behind a node: at the next number, or with the next letter behind the last.
    pub(crate) fn resume(&mut self, place: usize, node: u64) -> u64
        requires { (place < length self.old.table.work.now) × (letter_at self.old.table.work.now place < 255) }
        ensures same_table { SameTable self.old.table.work self.new.table.work }
        ensures progress { progress self.new ≡ progress self.old }
        ensures resumed { Resumed place node self.old.table.work.now self.new.table.work.now result }
    {
        match node.checked_add(1) {
            Some(next) => next,
            None => {
                self.turn(place);
                0
            }
        }
    }

    // Looks at one edge more, and gives the node that it leads to if that is new; else it goes on.
    fn look<M: Map>(&mut self, graph: &ImplicitGraph<'_, M>) -> Option<u64>
        requires going { IsSearching (graph_of M.Map.graph graph.now) (progress self.old) self.old.table.work.now }
        requires left { letter_at self.old.table.work.now self.old.cur < (graph_of M.Map.graph graph.now).letters }
        ensures same_table { SameTable self.old.table.work self.new.table.work }
        ensures progress { IsFurther (progress self.old) (progress self.new) }
        ensures looked { Looked (graph_of M.Map.graph graph.now) self.old.table.size self.old.table.top self.old.cur self.old.from self.old.table.work.now self.new.table.work.now self.new.from result }
    {
        let place = self.cur;
        let record = self.table.record(place);
        let Some(next) = graph.least_next(record.node, record.letter, self.from) else {
            self.turn(place);
            self.from = 0;
            return None;
        };
        if !self.meet(next) {
            return Some(next);
        }
        self.from = self.resume(place, next);
        None
    }

    // Looks at edges until one leads to a new node, or none is left.
    pub(crate) fn scan<M: Map>(&mut self, graph: &ImplicitGraph<'_, M>) -> Option<u64>
        requires going { IsSearching (graph_of M.Map.graph graph.now) (progress self.old) self.old.table.work.now }
        ensures same_table { SameTable self.old.table.work self.new.table.work }
        ensures progress { IsFurther (progress self.old) (progress self.new) }
        ensures scanned { Scanned (graph_of M.Map.graph graph.now) self.old.table.size self.old.table.top self.old.cur self.old.table.work.now self.new.table.work.now result }
    {
        let letters = graph.letters();
        while self.table.record(self.cur).letter < letters {
            if let Some(next) = self.look(graph) {
                return Some(next);
            }
        }
        None
    }
}
