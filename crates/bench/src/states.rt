// Whether a bench has a slip, and which.
ghost use Rattle.std.specs.Prelude.{◌<◌, ◌≤◌, length};
ghost use Rattle.slip.specs.Shapes.{stems};

use paths::Extent;
use records::Record;
use slip::{Kind, Slip};

// A slip by its kind, the number of its records, which are the first of the slip table, and its loop place.
#[derive(Clone, Copy, PartialEq, Eq, Debug)]
pub struct Form {
    pub kind: Kind,
    pub count: usize,
    // the place from which the records repeat for ever; 0 for keep
    pub stem: usize,
}

impl Form {
    ghost use Rattle.std.specs.Prelude.{◌≡◌};
    ghost use Rattle.bench.specs.Slips.{handed, slip_at};
    ghost use Rattle.slip.specs.declared.kinds.Kind.TheVariants as kinds;
    ghost use Rattle.slip.specs.Certificates.{content};

    // That of a break slip whose records are a lasso.
    pub(crate) fn of_lasso(extent: Extent) -> Form
        ensures { result ≡ record { kind = kinds.Break; count = extent.count; stem = extent.stem } }
    {
        Form {
            kind: Kind::Break,
            count: extent.count,
            stem: extent.stem,
        }
    }

    // The slip of this form.
    pub(crate) fn slip(self, table: &[Record]) -> Slip<'_>
        requires fits { self.count ≤ length table.now }
        requires few { self.count ≤ 131072 }
        requires placed { self.stem < stems self.kind self.count }
        ensures { content result ≡ slip_at self table.now }
    {
        Slip::new(self.kind, self.stem, &table[..self.count]).unwrap()
    }

    // What is handed out of the slip: the loop of a break slip, and all of a keep slip.
    pub(crate) fn part<'a>(self, table: &'a [Record]) -> &'a [Record]
        requires fits { self.count ≤ length table.now }
        requires placed { self.stem < stems self.kind self.count }
        ensures { result.now ≡ handed (slip_at self table.now) }
    {
        match self.kind {
            Kind::Keep => &table[..self.count],
            Kind::Break => &table[self.stem..self.count],
        }
    }
}

#[derive(Clone, Copy, PartialEq, Eq, Debug)]
pub enum State {
    // no slip
    Empty,
    // a slip that has not been inspected, or was found to break a rule
    Drafted(Form),
    // a slip that meets the rules of its kind
    Passed(Form),
}

impl State {
    ghost use Rattle.std.specs.Prelude.{◌≡◌, MatchOption};
    ghost use Rattle.bench.specs.Calls.{Formed};
    ghost use Rattle.bench.specs.declared.states.State.TheVariants as states;

    // The form of the slip, if there is one.
    pub fn form(self) -> Option<Form>
        ensures { MatchOption result (self ≡ states.Empty) (Formed self) }
    {
        match self {
            State::Empty => None,
            State::Drafted(form) | State::Passed(form) => Some(form),
        }
    }
}
