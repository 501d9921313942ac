// The calls that need no search: put, inspect, release and clear.
ghost use Rattle.std.specs.Prelude.{◌≡◌, ◌≤◌, MatchResult};
ghost use Rattle.bench.specs.Slips.{Fits};
ghost use Rattle.bench.specs.Tellings.{Call};
ghost use Rattle.bench.specs.declared.states.State.TheVariants as states;
ghost use Rattle.bench.specs.declared.faults.BenchFault.TheVariants as faults;

use crate::benches::Bench;
use crate::faults::BenchFault;
use crate::states::{Form, State};
use chart::Chart;
use lasso::NO_WORD;
use records::Record;
use slip::{Breach, Kind, stems};

// Refused by 9 where the slip has more records than a slip table for the room, or its loop place does not go with its kind.
fn check_fit(room: usize, kind: Kind, stem: usize, records: &[Record]) -> Result<(), BenchFault>
    requires { room ≤ 65536 }
    ensures { MatchResult result (λ _. Fits room (record { kind = kind; stem = stem; records = records.now })) (λ e. (e ≡ faults.Shape) × (Fits room (record { kind = kind; stem = stem; records = records.now }) → ⊥)) }
{
    if records.len() > 2 * room || stem >= stems(kind, records.len()) {
        return Err(BenchFault::Shape);
    }
    Ok(())
}

impl<D: Chart, R: Chart> Bench<D, R> {
    ghost use Rattle.bench.specs.Benches.{SameBench, duty_on, rule_on};
    ghost use Rattle.bench.specs.Calls.{Formed, InspectTells, PutTells, ReleaseTells, Sized};
    ghost use Rattle.bench.specs.Histories.{Clears, Hands, Law};
    ghost use Rattle.bench.specs.Slips.{Fitting, slip_at};
    ghost use Rattle.rank.specs.Ranked.{ranked_graph};
    ghost use Rattle.slip.specs.Rules.{BreachTold};

    // Refused by 7 where the slip table does not have twice as many records as the room.
    pub(crate) fn check_table(&self, table: &[Record]) -> Result<(), BenchFault>
        ensures { MatchResult result (λ _. Sized self.now.room table.now) (λ e. (e ≡ faults.Room) × (Sized self.now.room table.now → ⊥)) }
    {
        if table.len() != 2 * self.room {
            return Err(BenchFault::Room);
        }
        Ok(())
    }

    // Refused by 10 where there is a slip.
    pub(crate) fn check_empty(&self) -> Result<(), BenchFault>
        ensures { MatchResult result (λ _. self.now.state ≡ states.Empty) (λ e. (e ≡ faults.Occupied) × (self.now.state ≡ states.Empty → ⊥)) }
    {
        match self.state {
            State::Empty => Ok(()),
            _ => Err(BenchFault::Occupied),
        }
    }

    // The work of `put`. Here and below the law is left to the public call, so that what each part does is proved apart from it.
    fn fill(
        &mut self,
        kind: Kind,
        stem: usize,
        records: &[Record],
        table: &mut [Record],
    ) -> Result<(), BenchFault>
        ensures answer { PutTells (duty_on D.Chart.meaning self.old) (rule_on R.Chart.meaning self.old) self.old.room self.old.state table.old (record { kind = kind; stem = stem; records = records.now }) self.new.state table.new result }
        ensures bench { SameBench self.old self.new }
    {
        self.check_table(table)?;
        self.check_empty()?;
        check_fit(self.room, kind, stem, records)?;
        let count = records.len();
        table[..count].copy_from_slice(records);
        self.state = State::Drafted(Form { kind, count, stem });
        Ok(())
    }

    // Takes a slip, which is a certificate, from anywhere: copies its records over the first of `table`, and leaves it drafted. Nothing is
    // asked of what it holds; `stem` is its loop place, 0 for keep.
    //
    // Refused by 7 where `table` does not have twice as many records as the room, then by 10 where there is a slip, then by 9 where the slip
    // has more records than `table`, or its loop place does not go with its kind. A refusal alters nothing.
    pub fn put(
        &mut self,
        kind: Kind,
        stem: usize,
        records: &[Record],
        table: &mut [Record],
    ) -> Result<(), BenchFault>
        ensures answer { PutTells (duty_on D.Chart.meaning self.old) (rule_on R.Chart.meaning self.old) self.old.room self.old.state table.old (record { kind = kind; stem = stem; records = records.now }) self.new.state table.new result }
        ensures bench { SameBench self.old self.new }
        ensures law { Law D.Chart.meaning R.Chart.meaning (Call.put (record { kind = kind; stem = stem; records = records.now }) result) self.old table.old self.new table.new }
    {
        self.fill(kind, stem, records, table)
    }

    // The work of `clear`.
    fn forget(&mut self)
        ensures state { self.new.state ≡ states.Empty }
        ensures bench { SameBench self.old self.new }
    {
        self.state = State::Empty;
    }

    // Takes the slip away, if there is one. It is never refused, and the table, which is not lent, stays as it is.
    pub fn clear(&mut self)
        ensures state { self.new.state ≡ states.Empty }
        ensures bench { SameBench self.old self.new }
        ensures law { Clears D.Chart.meaning R.Chart.meaning self.old self.new }
    {
        self.forget();
    }

    // The form of the slip, and that it fits. Refused by 11 where there is none.
    fn form(&self) -> Result<Form, BenchFault>
        ensures { MatchResult result (λ f. Formed self.now.state f × Fitting self.now.room f) (λ e. (e ≡ faults.Vacant) × (self.now.state ≡ states.Empty)) }
    {
        self.state.form().ok_or(BenchFault::Vacant)
    }

    // The first rule that the slip of this form breaks.
    fn first_breach(&self, form: Form, table: &[Record]) -> Option<Breach>
        requires sized { Sized self.now.room table.now }
        requires fitting { Fitting self.now.room form }
        ensures { BreachTold (ranked_graph (duty_on D.Chart.meaning self.now) (rule_on R.Chart.meaning self.now)) (slip_at form table.now) result }
    {
        form.slip(table).first_breach(&self.map(), NO_WORD)
    }

    // The work of `inspect`.
    fn examine(&mut self, table: &[Record]) -> Result<(), BenchFault>
        ensures answer { InspectTells (duty_on D.Chart.meaning self.old) (rule_on R.Chart.meaning self.old) self.old.room self.old.state table.now self.new.state result }
        ensures bench { SameBench self.old self.new }
    {
        self.check_table(table)?;
        let form = self.form()?;
        if let Some(breach) = self.first_breach(form, table) {
            self.state = State::Drafted(form);
            return Err(BenchFault::Broken(breach));
        }
        self.state = State::Passed(form);
        Ok(())
    }

    // Checks the certificate: goes through the slip record by record, and leaves it passed exactly if it meets the rules of its kind over the
    // ranked graph. A passed slip may be inspected again.
    //
    // Refused by 7 where `table` does not have twice as many records as the room, then by 11 where there is no slip, then by 14 where a
    // rule is broken, which tells the lowest place and there the lowest rule. 14 leaves the slip drafted, also where it was passed; any
    // other refusal alters nothing.
    pub fn inspect(&mut self, table: &[Record]) -> Result<(), BenchFault>
        ensures answer { InspectTells (duty_on D.Chart.meaning self.old) (rule_on R.Chart.meaning self.old) self.old.room self.old.state table.now self.new.state result }
        ensures bench { SameBench self.old self.new }
        ensures law { Law D.Chart.meaning R.Chart.meaning (Call.inspect result) self.old table.now self.new table.now }
    {
        self.examine(table)
    }

    // The work of `release`.
    fn hand_out<'a>(&self, table: &'a [Record]) -> Result<&'a [Record], BenchFault>
        ensures answer { ReleaseTells (duty_on D.Chart.meaning self.now) (rule_on R.Chart.meaning self.now) self.now.room self.now.state table.now result }
    {
        self.check_table(table)?;
        match self.state {
            State::Empty => Err(BenchFault::Vacant),
            State::Drafted(_) => Err(BenchFault::Unpassed),
            State::Passed(form) => Ok(form.part(table)),
        }
    }

    // Hands out the part of `table` that is the loop of a passed break slip, a counterexample's cycle, or the whole of a passed keep slip. It
    // alters nothing.
    //
    // Refused by 7 where `table` does not have twice as many records as the room, then by 11 where there is no slip, then by 12 where it is
    // not passed.
    pub fn release<'a>(&self, table: &'a [Record]) -> Result<&'a [Record], BenchFault>
        ensures answer { ReleaseTells (duty_on D.Chart.meaning self.now) (rule_on R.Chart.meaning self.now) self.now.room self.now.state table.now result }
        ensures law { Law D.Chart.meaning R.Chart.meaning (Call.release result) self.now table.now self.now table.now }
        ensures hands { Hands D.Chart.meaning R.Chart.meaning self.now table.now result }
    {
        self.hand_out(table)
    }
}
