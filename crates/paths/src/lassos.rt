// Writing a lasso through a node into a table: a path from a start to the node, and one from the node back to it.
ghost use Rattle.std.specs.Prelude.{◌≡◌, ℕ, ◌+◌, ◌^◌, ◌≤◌, ◌<◌, ◌++◌, true, length, take, drop, reverse, MatchResult};
ghost use Rattle.graph.specs.Graphs.{Graph};
ghost use Rattle.paths.specs.Lassos.{Sized, SizesRefused, LassoAnswer};
ghost use Rattle.graph.specs.Implicit.{graph_of};
ghost use Rattle.records.specs.Tables.{node_at, measure_at};
ghost use Rattle.paths.specs.Queues.{graph_for, IsQueued, Link};
ghost use Rattle.paths.specs.Paths.{Traced, PathTold, PathRefused};

use crate::queues::{PathQuery, Queue, Stop, before};
use graph::{ImplicitGraph, Map};
use lasso::Word;
use records::{Record, SearchFault, check_table};

// How far a lasso reaches in a table: how many records it has, and the place from which they repeat for ever.
#[derive(Clone, Copy, PartialEq, Eq, Debug)]
pub struct Extent {
    pub count: usize,
    pub stem: usize,
}

impl Extent {
    fn new(stem: usize, cycle: usize) -> Extent
        requires { stem + cycle < 2 ^ 64 }
        ensures { result ≡ record { count = stem + cycle; stem = stem } }
    {
        Extent {
            count: stem + cycle,
            stem,
        }
    }
}

impl<'w> Queue<'w> {
    // The node at a place, with the letter by which a path goes on from it.
    fn step(&self, place: usize, letter: u8) -> Record
        requires { place < length self.now.table.work.now }
        ensures { result ≡ record { node = node_at self.now.table.work.now place; letter = letter; measure = 0 } }
    {
        Record {
            node: self.table.record(place).node,
            letter,
            measure: 0,
        }
    }

    // Writes the path to a node into the first records of a table, its last edge first, and counts them. The record that the node
    // would have in the queue is handed in.
    fn trace(&self, last: Record, table: &mut [Record]) -> usize
        requires falls { (i : ℕ) → i < self.now.table.size → measure_at self.now.table.work.now i ≤ i }
        requires last { last.measure ≤ self.now.table.size }
        requires room { self.now.table.size ≤ length table.old }
        ensures fits { result ≤ self.now.table.size }
        ensures some { 0 < last.measure → 0 < result }
        ensures traced { (g : Graph) (to : ℕ) → IsQueued g self.now.table.size self.now.table.work.now → Link g (node_at self.now.table.work.now) self.now.table.size last.letter last.measure to → Traced g to result table.old table.new }
    {
        let mut record = last;
        let mut count = 0;
        while let Some(place) = before(record) {
            table[count] = self.step(place, record.letter);
            record = self.table.record(place);
            count += 1;
        }
        count
    }
}

// Turns the first records of a table round.
fn turn_round(table: &mut [Record], count: usize)
    requires { count ≤ length table.old }
    ensures { table.new ≡ reverse (take count table.old) ++ drop count table.old }
{
    table[..count].reverse();
}

// Writes a path into the first records of a table, and counts them, if there is one. Refused by 13 where more nodes can be reached
// than the work table has records, unless the node is met before the room runs out.
fn write_path<M: Map>(
    query: &PathQuery<'_, M>,
    work: &mut [Record],
    table: &mut [Record],
) -> Result<Option<usize>, SearchFault>
    requires few { length work.old ≤ 65536 }
    requires room { length work.old ≤ length table.old }
    ensures { MatchResult result (PathTold (graph_for M.Map.graph query.now) query.now.from query.now.to (length work.old) table.old table.new) (PathRefused (graph_for M.Map.graph query.now) (length work.old) table.old table.new) }
{
    let mut queue = Queue::new(work);
    match queue.search(query) {
        Ok(()) => Ok(None),
        Err(Stop::Full) => Err(SearchFault::Full),
        Err(Stop::Found(last)) => {
            let count = queue.trace(last, table);
            turn_round(table, count);
            Ok(Some(count))
        }
    }
}

// Refused by 7 unless the work table has 1 to 65,536 records, and the other at least twice as many.
fn check_tables(work: &[Record], table: &[Record]) -> Result<(), SearchFault>
    ensures { MatchResult result (λ _. Sized (length work.now) (length table.now)) (SizesRefused (length work.now) (length table.now)) }
{
    check_table(work)?;
    if table.len() / 2 < work.len() {
        return Err(SearchFault::Table);
    }
    Ok(())
}

// Writes a lasso through a marked node.
fn write_marked<M: Map>(
    graph: &ImplicitGraph<'_, M>,
    node: u64,
    work: &mut [Record],
    table: &mut [Record],
) -> Result<Option<Extent>, SearchFault>
    requires marked { (graph_of M.Map.graph graph.now).marked node ≡ true }
    requires sized { Sized (length work.old) (length table.old) }
    ensures { LassoAnswer (graph_of M.Map.graph graph.now) node work.old work.new table.old table.new result }
{
    let query = PathQuery::to_node(graph, node);
    let Some(stem) = write_path(&query, work, table)? else {
        return Ok(None);
    };
    let Some(cycle) = write_path(&query.back(), work, &mut table[stem..])? else {
        return Ok(None);
    };
    Ok(Some(Extent::new(stem, cycle)))
}

// Writes a lasso through a marked node, the counterexample of an emptiness check: a stem from a start to the node and a cycle from it
// back to it, each found breadth first, with an edge asked for at most once in each. They stand in the first records of `table`, one
// behind the other, with all measures 0.
//
// `work` may have 1 to 65,536 records, and `table` at least twice as many: else this is refused by 7, and both are as they were.
// None where the node is not marked, cannot be reached or lies on no cycle. Refused by 13 where it is marked and more nodes can be
// reached than `work` has records; but where these suffice to find the lasso, or to see that there is none, that is the answer.
// Where no lasso is written, the first records of `table`, as many as `work` has, may hold a path to the node, and the others are as
// they were. Whenever the sizes are right, what `work` holds afterwards is no answer.
pub fn write_lasso<M: Map>(
    map: &M,
    word: Word<'_>,
    node: u64,
    work: &mut [Record],
    table: &mut [Record],
) -> Result<Option<Extent>, SearchFault>
    ensures { LassoAnswer (M.Map.graph map.now word.entry.elements.now word.entry.stem) node work.old work.new table.old table.new result }
{
    check_tables(work, table)?;
    let graph = ImplicitGraph { map, word };
    if !graph.is_marked(node) {
        return Ok(None);
    }
    write_marked(&graph, node, work, table)
}
