// The two charts read, and what is told of each by itself.
ghost use Rattle.std.specs.Prelude.{◌≡◌, Some, MatchResult};
ghost use Rattle.member.specs.Questions.{IsEmpty};
ghost use Rattle.report.specs.Listed.{Summarizes, ListsBoth, ListsTexts, empty_text, summary_text, summaries_text, listing_text};
ghost use Rattle.report.specs.Readings.{FirstRefused};

use crate::refusals::{Refusal, Side};
use chart::Chart;
use member::{Record, empty};
use std::fmt;

// What is told of a chart.
#[derive(Clone, Copy, PartialEq, Eq, Debug)]
pub struct Summary {
    pub states: u8,
    pub letters: u8,
    // it takes no word
    pub empty: bool,
}

#[derive(Clone, Copy, PartialEq, Eq, Debug)]
pub struct Summaries {
    pub duty: Summary,
    pub rule: Summary,
}

// Both charts, or the first refusal.
#[derive(Clone, Copy, PartialEq, Eq, Debug)]
pub struct Listing(pub Result<Summaries, Refusal>);

impl fmt::Display for Summary {
    ghost output = { λ s. Some (summary_text s) };

    fn fmt<W: fmt::Write>(&self, f: &mut fmt::Formatter<W>) -> fmt::Result {
        let empty = yes_or_no(self.empty);
        write!(f, "{} {} {empty}", self.states, self.letters)
    }
}

impl fmt::Display for Summaries {
    ghost output = { λ s. Some (summaries_text s) };

    fn fmt<W: fmt::Write>(&self, f: &mut fmt::Formatter<W>) -> fmt::Result {
        write!(
            f,
            "chart states letters empty\nduty {}\nrule {}\n",
            self.duty, self.rule
        )
    }
}

impl fmt::Display for Listing {
    ghost output = { λ r. Some (listing_text r) };

    fn fmt<W: fmt::Write>(&self, f: &mut fmt::Formatter<W>) -> fmt::Result {
        match &self.0 {
            Ok(summaries) => summaries.fmt(f),
            Err(refusal) => refusal.fmt(f),
        }
    }
}

// An answer as a word.
fn yes_or_no(answer: bool) -> &'static str
    ensures { result.now ≡ empty_text answer }
{
    if answer { "yes" } else { "no" }
}

// The most states of a chart: a record for each is enough to search it.
const STATES: usize = 32;

// Does the chart take no word? The search has records enough, so it is never refused.
fn takes_none<C: Chart>(chart: &C) -> bool
    ensures { IsEmpty (C.Chart.meaning chart.now) result }
{
    let mut work = [Record::default(); STATES];
    empty(chart, &mut work).unwrap()
}

// Any kind of chart is summarized alike, by what it means.
fn summarize<C: Chart>(chart: &C) -> Summary
    ensures { Summarizes (C.Chart.meaning chart.now) result }
{
    Summary {
        states: chart.states(),
        letters: chart.letters(),
        empty: takes_none(chart),
    }
}

fn list_both(duty: &[u8], rule: &[u8]) -> Result<Summaries, Refusal>
    ensures { MatchResult result (ListsBoth duty.now rule.now) (FirstRefused duty.now rule.now (λ a b e. ⊥)) }
{
    let duty = Side::Duty.read(duty)?;
    let rule = Side::Rule.read(rule)?;
    Ok(Summaries {
        duty: summarize(&duty.table()),
        rule: summarize(&rule.table()),
    })
}

// Reads the duty's text, then the rule's, and tells of each chart how large it is and whether it takes no word.
//
// Refused as `load` refuses the duty's text, by 1 or 2 at a line, then as it refuses the rule's, a text of more than 8,192 bytes by 1 at
// line 0. Nothing is lent that could be altered.
pub fn list_texts(duty: &[u8], rule: &[u8]) -> Listing
    ensures { ListsTexts duty.now rule.now result }
{
    Listing(list_both(duty, rule))
}
