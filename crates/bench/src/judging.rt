// Judge: the search of the ranked graph, and the slip that it leaves.
ghost use Rattle.std.specs.Prelude.{◌≡◌, ◌*◌, length, [], IfOk, MatchResult};
ghost use Rattle.bench.specs.Drafting.{Wrote, verdict_of};
ghost use Rattle.search.specs.Surveys.{Surveyed};

use crate::benches::Bench;
use crate::drafts::{write_break, write_keep};
use crate::faults::BenchFault;
use crate::states::{Form, State};
use crate::verdicts::Verdict;
use chart::Chart;
use graph::Map;
use lasso::NO_WORD;
use records::Record;
use search::{Findings, survey};
use slip::Kind;

// What the search says of the two charts.
fn tell(found: Findings) -> Verdict
    ensures { result ≡ verdict_of found }
{
    let kind = match found.witness {
        None => Kind::Keep,
        Some(_) => Kind::Break,
    };
    Verdict {
        kind,
        nodes: found.count,
    }
}

// Writes a slip for what the search of a graph has found.
fn write_slip<M: Map>(map: &M, found: Findings, work: &mut [Record], table: &mut [Record]) -> Form
    requires surveyed { Surveyed (M.Map.graph map.now [] 0) work.old found }
    requires sized { length table.old ≡ 2 * length work.old }
    ensures { Wrote (M.Map.graph map.now [] 0) (length work.old) (verdict_of found) table.old table.new result }
{
    match found.witness {
        None => write_keep(found.count, work, table),
        Some(node) => write_break(map, node, work, table),
    }
}

impl<D: Chart, R: Chart> Bench<D, R> {
    ghost use Rattle.bench.specs.Benches.{SameBench, duty_on, rule_on};
    ghost use Rattle.bench.specs.Calls.{JudgeTells, Sized, WillPass};
    ghost use Rattle.bench.specs.Drafting.{Overrun, SearchTells};
    ghost use Rattle.bench.specs.Histories.{Law};
    ghost use Rattle.bench.specs.Tellings.{Call};
    ghost use Rattle.bench.specs.declared.faults.BenchFault.TheVariants as faults;

    // Refused by 7 where `work` does not have as many records as the room, as judge would be: for who wants to know before it puts a slip.
    // It alters nothing.
    pub fn check_work(&self, work: &[Record]) -> Result<(), BenchFault>
        ensures { MatchResult result (λ _. length work.now ≡ self.now.room) (λ e. (e ≡ faults.Room) × (length work.now ≡ self.now.room → ⊥)) }
    {
        if work.len() != self.room {
            return Err(BenchFault::Room);
        }
        Ok(())
    }

    // Searches a graph. Refused by 13 where there is no room.
    fn survey<M: Map>(&self, map: &M, work: &mut [Record]) -> Result<Findings, BenchFault>
        requires { length work.old ≡ self.now.room }
        ensures same_length { length work.new ≡ length work.old }
        ensures found { MatchResult result (Surveyed (M.Map.graph map.now [] 0) work.new) (Overrun (M.Map.graph map.now [] 0) self.now.room) }
    {
        Ok(survey(map, NO_WORD, work)?)
    }

    // Searches the ranked graph, and writes a slip for what it finds. Refused by 13 where there is no room.
    fn search(
        &self,
        table: &mut [Record],
        work: &mut [Record],
    ) -> Result<(Verdict, Form), BenchFault>
        requires sized { Sized self.now.room table.old }
        requires work_sized { length work.old ≡ self.now.room }
        ensures { SearchTells (duty_on D.Chart.meaning self.now) (rule_on R.Chart.meaning self.now) self.now.room table.old table.new result }
    {
        let map = self.map();
        let found = self.survey(&map, work)?;
        let form = write_slip(&map, found, work, table);
        Ok((tell(found), form))
    }

    // The work of `judge`.
    fn draft(&mut self, table: &mut [Record], work: &mut [Record]) -> Result<Verdict, BenchFault>
        ensures answer { JudgeTells (duty_on D.Chart.meaning self.old) (rule_on R.Chart.meaning self.old) self.old.room self.old.state table.old work.old self.new.state table.new work.new result }
        ensures bench { SameBench self.old self.new }
    {
        self.check_table(table)?;
        self.check_work(work)?;
        self.check_empty()?;
        let (verdict, form) = self.search(table, work)?;
        self.state = State::Drafted(form);
        Ok(verdict)
    }

    // Does the rule take every repeating word that the duty takes? Searches their ranked graph, which is Kupferman and Vardi's, for an
    // accepting cycle, tells the verdict and how many nodes can be reached, and leaves a slip for it drafted, a certificate that inspect
    // passes: it stands in the first records of `table`, and the others are as they were. `work` is free then.
    //
    // Refused by 7 where `table` does not have twice as many records as the room, or `work` as many; then by 10 where there is a slip;
    // then by 13 where more nodes can be reached than the room. A refusal alters nothing, but 13 leaves `work` free.
    pub fn judge(
        &mut self,
        table: &mut [Record],
        work: &mut [Record],
    ) -> Result<Verdict, BenchFault>
        ensures answer { JudgeTells (duty_on D.Chart.meaning self.old) (rule_on R.Chart.meaning self.old) self.old.room self.old.state table.old work.old self.new.state table.new work.new result }
        ensures bench { SameBench self.old self.new }
        ensures passes { IfOk result (λ v. WillPass (duty_on D.Chart.meaning self.new) (rule_on R.Chart.meaning self.new) self.new.room self.new.state table.new) }
        ensures law { Law D.Chart.meaning R.Chart.meaning (Call.judge table.new result) self.old table.old self.new table.new }
    {
        self.draft(table, work)
    }
}
