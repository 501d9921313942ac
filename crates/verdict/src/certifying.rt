// A verdict with the slip that shows it, and a slip that is confirmed. The contracts here are proved from those of the bench's
// calls.
ghost use Rattle.std.specs.Prelude.{ℕ, List, MatchResult};
ghost use Rattle.bench.specs.Tellings.{Call, NoPassed, Status};
ghost use Rattle.chart.specs.Automata.{Automaton};
ghost use Rattle.bench.specs.Histories.{LedTo};
ghost use Rattle.verdict.specs.Certified.{CertifyTells, ConfirmTells, DecideTells, Passes};

use bench::{Bench, BenchFault, Form, Kind, Record, Verdict};
use chart::Chart;

// A verdict, and the form of the slip that shows it, whose records are the first of the slip table.
#[derive(Clone, Copy, PartialEq, Eq, Debug)]
pub struct Certified {
    pub verdict: Verdict,
    pub form: Form,
}

// The form of the passed slip on a bench, as release vouches for it. Refused where release is.
fn passed_form<D: Chart, R: Chart>(
    bench: &Bench<D, R>,
    table: &[Record],
) -> Result<Form, BenchFault>
    ensures { (a b : Automaton) (n : ℕ) (calls : List Call) (told : Status) → LedTo D.Chart.meaning R.Chart.meaning a b n calls told bench.now table.now → MatchResult result (Passes a b told) (λ e. NoPassed told) }
{
    bench.release(table)?;
    bench.state().form().ok_or(BenchFault::Vacant)
}

// Judges on a bench that is empty, whatever calls left it so, inspects the slip and releases it.
pub(crate) fn certify<D: Chart, R: Chart>(
    bench: &mut Bench<D, R>,
    table: &mut [Record],
    work: &mut [Record],
) -> Result<Certified, BenchFault>
    ensures { (a b : Automaton) (n : ℕ) (calls : List Call) (mine : List Record) → LedTo D.Chart.meaning R.Chart.meaning a b n calls Status.empty bench.old mine → CertifyTells a b n table.old table.new work.old work.new result }
{
    let verdict = bench.judge(table, work)?;
    bench.inspect(table)?;
    let form = passed_form(bench, table)?;
    Ok(Certified { verdict, form })
}

// Does the rule take every repeating word that the duty takes? Decides the containment of the duty's language in the rule's, by way of a
// bench: a slip is judged, inspected and released. It stands in the first records of `table` then, and those behind it are as they were;
// `work` is free.
//
// Refused by 5 where the charts differ in letters, then by 6 where the rule has more than 6 states, then by 7 where the room is not
// from 1 to 65,536 nodes, or `table` does not have twice as many records or `work` as many, then by 13 where more nodes of the ranked graph
// can be reached than the room. A refusal leaves both tables as they were, but 13 leaves `work` free. The charts are let go.
pub fn decide<D: Chart + Drop, R: Chart + Drop>(
    duty: D,
    rule: R,
    room: usize,
    table: &mut [Record],
    work: &mut [Record],
) -> Result<Certified, BenchFault>
    ensures { DecideTells (D.Chart.meaning duty) (R.Chart.meaning rule) room table.old table.new work.old work.new result }
{
    let mut bench = Bench::new(duty, rule, room)?;
    certify(&mut bench, table, work)
}

// Does a slip from anywhere show what its kind says of a duty and a rule? Checks the certificate by way of a bench: it is put, inspected and
// released. It stands in the first records of `table` then, and those behind it are as they were.
//
// Refused by 5 where the charts differ in letters, then by 6 where the rule has more than 6 states, then by 7 where the room is not
// from 1 to 65,536 nodes, or `table` does not have twice as many records, then by 9 where the slip has more records than `table` or a loop
// place that does not go with its kind, then by 14 where it breaks a rule, at the lowest place and there the lowest rule. A refusal
// leaves the table as it was, but 14 leaves the slip in it. The charts are let go.
pub fn confirm<D: Chart + Drop, R: Chart + Drop>(
    duty: D,
    rule: R,
    room: usize,
    kind: Kind,
    stem: usize,
    records: &[Record],
    table: &mut [Record],
) -> Result<Form, BenchFault>
    ensures { ConfirmTells (D.Chart.meaning duty) (R.Chart.meaning rule) room (record { kind = kind; stem = stem; records = records.now }) table.old table.new result }
{
    let mut bench = Bench::new(duty, rule, room)?;
    bench.put(kind, stem, records, table)?;
    bench.inspect(table)?;
    passed_form(&bench, table)
}
