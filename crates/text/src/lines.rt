// One line as an entry.
ghost use Rattle.std.specs.Prelude.{◌≡◌};
ghost use Rattle.text.specs.Tokens.{as_three};
ghost use Rattle.text.specs.Words.{state_of, step_of, heads, read_entry, read_columns, read_state, read_step, three_words};

use crate::entries::{Entry, Stage, StateLine, StepLine};
use crate::words::{Span, Trio};

impl Trio<'_> {
    // Do the three words say these names?
    fn is_heading(self, a: &[u8], b: &[u8], c: &[u8]) -> bool
        ensures { result ≡ heads a.now b.now c.now (as_three self.entry) }
    {
        self.first.is_named(a) && self.second.is_named(b) && self.third.is_named(c)
    }

    // None where a word does not fit its column. No TryFrom, since its error would say no more.
    fn state_line(self) -> Option<StateLine>
        ensures { result ≡ state_of (as_three self.entry) }
    {
        Some(StateLine {
            number: self.first.value()?,
            start: self.second.start()?,
            mark: self.third.mark()?,
        })
    }

    // The same for a step, and likewise no TryFrom.
    fn step_line(self) -> Option<StepLine>
        ensures { result ≡ step_of (as_three self.entry) }
    {
        Some(StepLine {
            from: self.first.value()?,
            by: self.second.by()?,
            to: self.third.value()?,
        })
    }
}

fn read_columns(span: Span<'_>) -> Option<Entry>
    ensures { result ≡ read_columns (three_words span.entry.text.now) }
{
    let trio = span.three_words()?;
    trio.is_heading(b"state", b"start", b"mark")
        .then_some(Entry::Columns)
}

fn read_state(span: Span<'_>) -> Option<Entry>
    ensures { result ≡ read_state (three_words span.entry.text.now) }
{
    let trio = span.three_words()?;
    if trio.is_heading(b"from", b"by", b"to") {
        return Some(Entry::Heading);
    }
    trio.state_line().map(Entry::State)
}

fn read_step(span: Span<'_>) -> Option<Entry>
    ensures { result ≡ read_step (three_words span.entry.text.now) }
{
    span.three_words()?.step_line().map(Entry::Step)
}

// What the line says, or none where it has not the form that the stage asks for. A match and no closure in a table: the
// stages are the form's, and there will be no other.
pub(crate) fn read_entry(stage: Stage, line: Span<'_>) -> Option<Entry>
    ensures { result ≡ read_entry stage line.entry.text.now }
{
    match stage {
        Stage::AtTitle => line.token().is_named(b"letters").then_some(Entry::Title),
        Stage::AtCount => line.token().value().map(Entry::Count),
        Stage::AtColumns => read_columns(line),
        Stage::AtStates => read_state(line),
        Stage::AtSteps => read_step(line),
    }
}
