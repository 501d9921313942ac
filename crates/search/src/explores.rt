// The steps of a search: a new node is entered, an explored place is left for its parent, a component is retired.
ghost use Rattle.std.specs.Prelude.{◌<◌, length, MatchResult};
ghost use Rattle.graph.specs.Graphs.{Graph, Bounded};
ghost use Rattle.records.specs.Tables.{SameTable, letter_at};
ghost use Rattle.graph.specs.Implicit.{graph_of};
ghost use Rattle.search.specs.Progress.{progress};
ghost use Rattle.search.specs.Searches.{IsExplored, Going, Stepped, Rested, Entered, Crowded, TooMany, GoesOn};
ghost use Rattle.search.specs.Links.{low_at, up_at};
ghost use Rattle.search.specs.Weights.{IsRooted, Retired, HasRetired};

use crate::links::{entered, low_link, parent};
use crate::searches::Search;
use graph::{ImplicitGraph, Map};
use records::SearchFault;

impl<'w> Search<'w> {
    // Pushes a new node, if there is room.
    pub(crate) fn enter(&mut self, next: u64) -> Result<(), SearchFault>
        requires { self.old.cur < 65536 }
        ensures same_table { SameTable self.old.table.work self.new.table.work }
        ensures entered { MatchResult result (λ _. Entered (progress self.old) next self.old.table.work.now self.new.table.work.now (progress self.new)) (Crowded (progress self.old)) }
    {
        // before its record is made: in the largest table a place past the end would not fit its half of the measure
        if self.table.is_full() {
            return Err(SearchFault::Full);
        }
        let place = self.table.size();
        self.table.push(entered(next, self.cur, place))?;
        self.cur = place;
        self.from = 0;
        Ok(())
    }

    // Goes on at a place, behind a node.
    fn go_on(&mut self, place: usize, node: u64)
        requires { (place < self.old.table.size) × (letter_at self.old.table.work.now place < 255) }
        ensures same_table { SameTable self.old.table.work self.new.table.work }
        ensures goes_on { GoesOn place node (progress self.old) self.old.table.work.now self.new.table.work.now (progress self.new) }
    {
        self.from = self.resume(place, node);
        self.cur = place;
    }

    // Leaves the current place for its parent, which gets its low link and goes on behind its node.
    fn leave(&mut self)
        requires inside { self.old.cur < length self.old.table.work.now }
        requires parent { up_at self.old.table.work.now self.old.cur < self.old.table.size }
        requires letter { letter_at self.old.table.work.now (up_at self.old.table.work.now self.old.cur) < 255 }
        ensures same_table { SameTable self.old.table.work self.new.table.work }
        ensures stepped { (g : Graph) → Bounded g → IsExplored g (progress self.old) self.old.table.work.now → low_at self.old.table.work.now self.old.cur < self.old.cur → Stepped g (progress self.old) self.old.table.work.now self.new.table.work.now (progress self.new) }
    {
        let explored = self.table.record(self.cur);
        let up = parent(explored);
        self.lower(up, low_link(explored));
        self.go_on(up, explored.node);
    }

    // Assesses the component of the current place, and moves it to what is done.
    fn retire<M: Map>(&mut self, graph: &ImplicitGraph<'_, M>)
        requires { IsRooted (graph_of M.Map.graph graph.now) (progress self.old) self.old.table.work.now }
        ensures same_table { SameTable self.old.table.work self.new.table.work }
        ensures progress { HasRetired (progress self.old) (progress self.new) }
        ensures retired { Retired (graph_of M.Map.graph graph.now) self.old.table.size self.old.table.top self.old.cur self.old.table.work.now self.new.table.work.now self.new.found }
    {
        let worth = self.assess(graph);
        self.table.move_up(self.cur, worth.unwrap_or(0));
        self.found = worth.err();
    }

    // Retires the component of the current place; the parent goes on, if there is one.
    fn close<M: Map>(&mut self, graph: &ImplicitGraph<'_, M>)
        requires { IsRooted (graph_of M.Map.graph graph.now) (progress self.old) self.old.table.work.now }
        ensures same_table { SameTable self.old.table.work self.new.table.work }
        ensures stepped { Stepped (graph_of M.Map.graph graph.now) (progress self.old) self.old.table.work.now self.new.table.work.now (progress self.new) }
    {
        let root = self.table.record(self.cur);
        self.retire(graph);
        if self.cur > 0 {
            self.go_on(parent(root), root.node);
        }
    }

    // Goes on from an explored place.
    fn finish<M: Map>(&mut self, graph: &ImplicitGraph<'_, M>)
        requires { IsExplored (graph_of M.Map.graph graph.now) (progress self.old) self.old.table.work.now }
        ensures same_table { SameTable self.old.table.work self.new.table.work }
        ensures stepped { Stepped (graph_of M.Map.graph graph.now) (progress self.old) self.old.table.work.now self.new.table.work.now (progress self.new) }
    {
        if low_link(self.table.record(self.cur)) < self.cur {
            self.leave();
        } else {
            self.close(graph);
        }
    }

    // One step, refused by 13 where a new node finds no room.
    fn step<M: Map>(&mut self, graph: &ImplicitGraph<'_, M>) -> Result<(), SearchFault>
        requires going { Going (graph_of M.Map.graph graph.now) (progress self.old) self.old.table.work.now }
        requires some { 0 < self.old.table.size }
        ensures same_table { SameTable self.old.table.work self.new.table.work }
        ensures stepped { MatchResult result (λ _. Stepped (graph_of M.Map.graph graph.now) (progress self.old) self.old.table.work.now self.new.table.work.now (progress self.new)) (TooMany (graph_of M.Map.graph graph.now) (length self.old.table.work.now)) }
    {
        match self.scan(graph) {
            Some(next) => self.enter(next),
            None => {
                self.finish(graph);
                Ok(())
            }
        }
    }

    // Steps until the stack is empty. It is a function of its own in the program too: among its caller's code, the loop that
    // looks for a node may be laid out so that it takes over twice the time.
    #[inline(never)]
    pub(crate) fn explore<M: Map>(
        &mut self,
        graph: &ImplicitGraph<'_, M>,
    ) -> Result<(), SearchFault>
        requires { Going (graph_of M.Map.graph graph.now) (progress self.old) self.old.table.work.now }
        ensures same_table { SameTable self.old.table.work self.new.table.work }
        ensures rested { MatchResult result (λ _. Rested (graph_of M.Map.graph graph.now) (progress self.old) self.old.table.work.now self.new.table.work.now (progress self.new)) (TooMany (graph_of M.Map.graph graph.now) (length self.old.table.work.now)) }
    {
        while self.table.size() > 0 {
            self.step(graph)?;
        }
        Ok(())
    }
}
