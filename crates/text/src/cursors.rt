// A text read line by line.
ghost use Rattle.std.specs.Prelude.{◌≡◌, ℕ, List, length, MatchBool};
ghost use Rattle.text.specs.Documents.{Document};
ghost use Rattle.text.specs.Reading.{Context, Stands, Turned, Shorter, first, finish, fine, wrong_form};

use crate::entries::{Entry, Stage};
use crate::lines::read_entry;
use crate::places::Place;
use crate::words::Span;
use fault::TextFault;

#[derive(Clone, Copy)]
pub struct Cursor<'a> {
    pub place: Place,
    // the text from the line that comes next, which is counted from 1
    pub rest: Span<'a>,
}

// Behind the last line feed: nothing may stand there, and the steps have to be reached.
fn is_end(stage: Stage, rest: &[u8]) -> bool
    ensures { (d : Document) (n : ℕ) → MatchBool result (finish stage d n rest.now ≡ fine d) (finish stage d n rest.now ≡ wrong_form n) }
{
    stage == Stage::AtSteps && rest.is_empty()
}

impl<'a> Cursor<'a> {
    pub(crate) fn new(text: &'a [u8]) -> Cursor<'a>
        ensures { Stands text.now first result }
    {
        Cursor {
            place: Place::new(),
            rest: Span { text, line: 1 },
        }
    }

    // Reads the next line. There is none where the text ends, and is whole.
    pub(crate) fn advance(&mut self) -> Result<Option<Entry>, TextFault>
        ensures turned { (text : List ℕ) (k : Context) → Stands text k self.old → Turned text k self.new result }
        ensures shorter { Shorter result (length self.new.rest.text.now) (length self.old.rest.text.now) }
    {
        let line = self.rest.line;
        let Some((head, rest)) = self.rest.split_once(b'\n') else {
            if is_end(self.place.stage, self.rest.text) {
                return Ok(None);
            }
            return Err(TextFault::Form(line));
        };
        let entry = read_entry(self.place.stage, head).ok_or(TextFault::Form(line))?;
        self.place = self.place.take(entry).ok_or(TextFault::Range(line))?;
        self.rest = Span {
            line: line.saturating_add(1),
            ..rest
        };
        Ok(Some(entry))
    }
}
