// The verdict on two chart texts.
ghost use Rattle.std.specs.Prelude.{◌≡◌, Some, MatchResult};
ghost use Rattle.report.specs.Readings.{FirstRefused};
ghost use Rattle.report.specs.Decided.{BothRefused, CertifiesBoth, ChartsTold, DecidesBoth, Reports, report_text};
ghost use Rattle.report.specs.ReadCharts.{chart_of};

use crate::read_charts::ReadChart;
use crate::refusals::{Refusal, Side};
use bench::BenchFault;
use std::fmt;
use verdict::{Certified, Record, Verdict, decide};

// What the program prints.
#[derive(Clone, Copy, PartialEq, Eq, Debug)]
pub struct Report(pub Result<Verdict, Refusal>);

impl fmt::Display for Report {
    ghost output = { λ r. Some (report_text r) };

    fn fmt<W: fmt::Write>(&self, f: &mut fmt::Formatter<W>) -> fmt::Result {
        match &self.0 {
            Ok(verdict) => verdict.fmt(f),
            Err(refusal) => refusal.fmt(f),
        }
    }
}

// The most nodes that the programs search.
pub const ROOM: usize = 512;

// The records of a slip table for so many nodes.
pub const SLIP: usize = 2 * ROOM;

// The verdict on two charts, with its slip in the table.
fn certify_charts(
    duty: &ReadChart,
    rule: &ReadChart,
    table: &mut [Record; SLIP],
    work: &mut [Record; ROOM],
) -> Result<Certified, BenchFault>
    ensures { ChartsTold (chart_of duty.now) (chart_of rule.now) table.old table.new result }
{
    decide(duty.table(), rule.table(), ROOM, table, work)
}

// The verdict on the charts of the two texts, with its slip in the table. A refusal leaves the table as it was.
pub(crate) fn certify_both(
    duty: &[u8],
    rule: &[u8],
    table: &mut [Record; SLIP],
) -> Result<Certified, Refusal>
    ensures { MatchResult result (CertifiesBoth duty.now rule.now table.old table.new) (λ r. FirstRefused duty.now rule.now BothRefused r × (table.new ≡ table.old)) }
{
    let duty = Side::Duty.read(duty)?;
    let rule = Side::Rule.read(rule)?;
    let mut work = [Record::default(); ROOM];
    certify_charts(&duty, &rule, table, &mut work).map_err(|fault| Refusal {
        side: Side::Bench,
        fault,
    })
}

fn decide_both(duty: &[u8], rule: &[u8]) -> Result<Verdict, Refusal>
    ensures { MatchResult result (DecidesBoth duty.now rule.now) (FirstRefused duty.now rule.now BothRefused) }
{
    let mut table = [Record::default(); SLIP];
    let certified = certify_both(duty, rule, &mut table)?;
    Ok(certified.verdict)
}

// Reads the duty's text, then the rule's, and decides whether the rule takes every repeating word that the duty takes, in a room of 512
// nodes of their ranked graph.
//
// Refused as `load` refuses the duty's text, by 1 or 2 at a line, then as it refuses the rule's, a text of more than 8,192 bytes by 1 at
// line 0; then by 5 where the charts differ in letters, by 6 where the rule has more than 6 states, and by 13 where more nodes can be
// reached than the room. Nothing is lent that could be altered.
pub fn decide_texts(duty: &[u8], rule: &[u8]) -> Report
    ensures { Reports duty.now rule.now result }
{
    Report(decide_both(duty, rule))
}
