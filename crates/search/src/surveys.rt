// The search from every start, and what it finds.
ghost use Rattle.std.specs.Prelude.{◌≡◌, ◌≤◌, true, length, MatchResult};
ghost use Rattle.records.specs.Tables.{SameTable};
ghost use Rattle.graph.specs.Implicit.{graph_of};
ghost use Rattle.records.specs.Sizes.{Allowed};
ghost use Rattle.search.specs.Progress.{progress};
ghost use Rattle.search.specs.Searches.{Going, Visited, Swept, TooMany};
ghost use Rattle.search.specs.Surveys.{Surveyed, Refused};

use crate::searches::Search;
use graph::{ImplicitGraph, Map, Nodes};
use lasso::Word;
use records::{Record, SearchFault, check_table};

// What a search found.
#[derive(Clone, Copy, PartialEq, Eq, Debug)]
pub struct Findings {
    // how many nodes can be reached; they stand in the first records of the table, which stays the caller's
    pub count: usize,
    // a reachable marked node on a cycle, if there is one; else the records have their measures
    pub witness: Option<u64>,
}

impl<'w> Search<'w> {
    // Searches from a start, unless it is done.
    fn visit<M: Map>(&mut self, graph: &ImplicitGraph<'_, M>, start: u64) -> Result<(), SearchFault>
        requires going { Going (graph_of M.Map.graph graph.now) (progress self.old) self.old.table.work.now }
        requires empty { self.old.table.size ≡ 0 }
        requires start { (graph_of M.Map.graph graph.now).start start ≡ true }
        ensures same_table { SameTable self.old.table.work self.new.table.work }
        ensures visited { MatchResult result (λ _. Visited (graph_of M.Map.graph graph.now) (progress self.old) start self.old.table.work.now self.new.table.work.now (progress self.new)) (TooMany (graph_of M.Map.graph graph.now) (length self.old.table.work.now)) }
    {
        if self.table.is_done(start) {
            return Ok(());
        }
        self.enter(start)?;
        self.explore(graph)
    }

    // Searches from every start.
    fn sweep<M: Map>(&mut self, graph: &ImplicitGraph<'_, M>) -> Result<(), SearchFault>
        requires going { Going (graph_of M.Map.graph graph.now) (progress self.old) self.old.table.work.now }
        requires empty { self.old.table.size ≡ 0 }
        ensures same_table { SameTable self.old.table.work self.new.table.work }
        ensures swept { MatchResult result (λ _. Swept (graph_of M.Map.graph graph.now) self.new.table.work.now (progress self.new)) (TooMany (graph_of M.Map.graph graph.now) (length self.old.table.work.now)) }
    {
        for start in graph.rising(Nodes::Starts) {
            self.visit(graph, start)?;
        }
        Ok(())
    }

    // Collects what is found in the first records, once nothing is left to search from.
    fn collect<M: Map>(&mut self, graph: &ImplicitGraph<'_, M>) -> Result<Findings, SearchFault>
        requires some { 1 ≤ length self.old.table.work.now }
        requires going { Going (graph_of M.Map.graph graph.now) (progress self.old) self.old.table.work.now }
        requires empty { self.old.table.size ≡ 0 }
        ensures same_table { SameTable self.old.table.work self.new.table.work }
        ensures collected { MatchResult result (Surveyed (graph_of M.Map.graph graph.now) self.new.table.work.now) (TooMany (graph_of M.Map.graph graph.now) (length self.old.table.work.now)) }
    {
        self.sweep(graph)?;
        Ok(Findings {
            count: self.table.settle(),
            witness: self.found,
        })
    }
}

// What a search leaves: what it found, and the table. It is handed back here, where a caller follows it; two structs deep, in a
// `Search`, nothing would be known of it at the end.
#[derive(Drop)]
struct Searched<'w> {
    work: &'w mut [Record],
    told: Result<Findings, SearchFault>,
}

// Searches a graph in a table.
fn search_in<'w, M: Map>(graph: &ImplicitGraph<'_, M>, work: &'w mut [Record]) -> Searched<'w>
    requires { Allowed (length work.old) }
    ensures same_reference { result.work.ghost_name ≡ work.entry.ghost_name }
    ensures told { MatchResult result.told (Surveyed (graph_of M.Map.graph graph.now) result.work.now) (TooMany (graph_of M.Map.graph graph.now) (length work.old)) }
{
    let mut search = Search::new(work);
    let told = search.collect(graph);
    let Search { table, .. } = search;
    Searched {
        work: table.give_back(),
        told,
    }
}

// Searches a graph depth first, by its strongly connected components: collects each reachable node once, in the first records of `work`,
// and tells whether a marked one lies on a cycle. What the other records hold then, and the letters, is free.
//
// Refused by 7 where `work` has no record or more than 65,536, which leaves it as it was; then by 13 where the reachable nodes are more
// than its records, which leaves it free.
pub fn survey<M: Map>(map: &M, word: Word<'_>, work: &mut [Record]) -> Result<Findings, SearchFault>
    ensures { MatchResult result (Surveyed (M.Map.graph map.now word.entry.elements.now word.entry.stem) work.new) (Refused (M.Map.graph map.now word.entry.elements.now word.entry.stem) work.old work.new) }
{
    check_table(work)?;
    search_in(&ImplicitGraph { map, word }, work).told
}
