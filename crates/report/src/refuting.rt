// What is told of two chart texts where a word is told of a break.
ghost use Rattle.std.specs.Prelude.{Some, IfOk, MatchResult};
ghost use Rattle.report.specs.Counterexamples.{Lettered, Tells, TellsBoth, TellsTexts, counterexample_report_text, told_text};
ghost use Rattle.report.specs.Decided.{BothRefused, CertifiesBoth};
ghost use Rattle.report.specs.Readings.{FirstRefused};

use crate::counterexamples::Counterexample;
use crate::deciding::{SLIP, certify_both};
use crate::refusals::Refusal;
use std::fmt;
use verdict::{Certified, Kind, Record, Verdict};

#[derive(Clone, Copy)]
pub enum Told {
    // the rule takes every repeating word that the duty takes
    Kept(Verdict),
    // it does not take this one
    Broken(Counterexample),
}

// What the program prints.
#[derive(Clone, Copy)]
pub struct CounterexampleReport(pub Result<Told, Refusal>);

impl fmt::Display for Told {
    ghost output = { λ t. Some (told_text t) };

    fn fmt<W: fmt::Write>(&self, f: &mut fmt::Formatter<W>) -> fmt::Result {
        match self {
            Told::Kept(verdict) => verdict.fmt(f),
            Told::Broken(counterexample) => counterexample.fmt(f),
        }
    }
}

impl fmt::Display for CounterexampleReport {
    ghost output = { λ r. Some (counterexample_report_text r) };

    fn fmt<W: fmt::Write>(&self, f: &mut fmt::Formatter<W>) -> fmt::Result {
        match &self.0 {
            Ok(told) => told.fmt(f),
            Err(refusal) => refusal.fmt(f),
        }
    }
}

// The verdict of a keep slip, and the word of a break slip, which is in the first records of the table.
fn tell(certified: Certified, table: [Record; SLIP]) -> Told
    requires { Lettered certified table }
    ensures { Tells certified table result }
{
    match certified.verdict.kind {
        Kind::Keep => Told::Kept(certified.verdict),
        Kind::Break => Told::Broken(Counterexample {
            form: certified.form,
            table,
        }),
    }
}

// The letters of a break slip are those of a word, so each can be shown.
fn certify_lettered(
    duty: &[u8],
    rule: &[u8],
    table: &mut [Record; SLIP],
) -> Result<Certified, Refusal>
    ensures answer { MatchResult result (CertifiesBoth duty.now rule.now table.old table.new) (FirstRefused duty.now rule.now BothRefused) }
    ensures letters { IfOk result (λ c. Lettered c table.new) }
{
    certify_both(duty, rule, table)
}

fn tell_both(duty: &[u8], rule: &[u8]) -> Result<Told, Refusal>
    ensures { MatchResult result (TellsBoth duty.now rule.now) (FirstRefused duty.now rule.now BothRefused) }
{
    let mut table = [Record::default(); SLIP];
    let certified = certify_lettered(duty, rule, &mut table)?;
    Ok(tell(certified, table))
}

// Reads the duty's text, then the rule's, and tells a word that the duty takes and the rule does not, if there is one, which is a
// counterexample to the containment of the one's language in the other's; else the verdict, keep, and how many nodes can be reached.
//
// Refused as `load` refuses the duty's text, by 1 or 2 at a line, then as it refuses the rule's, a text of more than 8,192 bytes by 1 at
// line 0; then by 5 where the charts differ in letters, by 6 where the rule has more than 6 states, and by 13 where more than 512 nodes
// of the ranked graph can be reached. Nothing is lent that could be altered.
pub fn counterexample_of_texts(duty: &[u8], rule: &[u8]) -> CounterexampleReport
    ensures { TellsTexts duty.now rule.now result }
{
    CounterexampleReport(tell_both(duty, rule))
}
