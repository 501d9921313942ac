// A slip from anywhere held against a verdict of our own.
ghost use Rattle.verdict.specs.Certified.{AuditTells, RulesSaid};

use crate::certifying::{Certified, certify};
use bench::{Bench, BenchFault, Breach, Kind, Record};
use chart::Chart;

// What an audit of a slip tells.
#[derive(Clone, Copy, PartialEq, Eq, Debug)]
pub struct Audited {
    // the first rule that the slip breaks, if it breaks one
    pub breach: Option<Breach>,
    // the verdict, and the slip that shows it
    pub certified: Certified,
}

// The breach that an inspection was refused for, if there was one.
fn breach_of(inspected: Result<(), BenchFault>) -> Result<Option<Breach>, BenchFault>
    ensures { RulesSaid inspected result }
{
    match inspected {
        Ok(()) => Ok(None),
        Err(BenchFault::Broken(breach)) => Ok(Some(breach)),
        Err(fault) => Err(fault),
    }
}

// Which rule does a slip from anywhere break first, if any, and what is the verdict on the duty and the rule? Checks the certificate that is
// given against a decision of its own, by way of a bench: the slip is put and inspected, and whatever that says, cleared; then a slip is
// judged, inspected and released. That one stands in the first records of `table` then, those behind it are as the slip that was given left
// them, and `work` is free.
//
// Refused by 5 where the charts differ in letters, then by 6 where the rule has more than 6 states, then by 7 where the room is not
// from 1 to 65,536, or `table` does not have twice as many records or `work` as many, then by 9 where the slip given has more records than
// `table` or a loop place that does not go with its kind, then by 13 where more nodes of the ranked graph can be reached than the room. A
// refusal leaves both tables as they were, but 13 leaves the slip given in `table`, and `work` free. The charts are let go.
pub fn audit<D: Chart + Drop, R: Chart + Drop>(
    duty: D,
    rule: R,
    room: usize,
    kind: Kind,
    stem: usize,
    records: &[Record],
    table: &mut [Record],
    work: &mut [Record],
) -> Result<Audited, BenchFault>
    ensures { AuditTells (D.Chart.meaning duty) (R.Chart.meaning rule) room (record { kind = kind; stem = stem; records = records.now }) table.old table.new work.old work.new result }
{
    let mut bench = Bench::new(duty, rule, room)?;
    bench.check_work(work)?;
    bench.put(kind, stem, records, table)?;
    let breach = breach_of(bench.inspect(table))?;
    bench.clear();
    let certified = certify(&mut bench, table, work)?;
    Ok(Audited { breach, certified })
}
