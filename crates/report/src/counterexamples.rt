// A word that the duty of two charts takes and the rule does not.
ghost use Rattle.std.specs.Prelude.{◌<◌, ◌≤◌, take};
ghost use Rattle.report.specs.Spelled.{Known};

use crate::deciding::SLIP;
use crate::letters::Letters;
use std::fmt;
use verdict::{Form, Record};

// A word that the duty takes and the rule forbids, by the break slip whose letters it has: those before its loop place come once,
// and the others repeat for ever.
#[derive(Clone, Copy)]
pub struct Counterexample {
    pub(crate) form: Form,
    pub(crate) table: [Record; SLIP],
    ghost fits: { form.count ≤ 1024 },
    ghost placed: { form.stem < form.count },
    ghost known: { Known (take form.count table) },
}

impl Counterexample {
    ghost use Rattle.std.specs.Prelude.{◌≡◌, drop};
    ghost use Rattle.report.specs.Counterexamples.{slip_of};

    // The records of the slip.
    fn records(&self) -> &[Record]
        ensures { result.now ≡ slip_of self.now }
    {
        &self.table[..self.form.count]
    }

    // The letters that come once.
    pub fn stem(&self) -> Letters<'_>
        ensures { result.records.now ≡ take self.now.form.stem (slip_of self.now) }
    {
        Letters {
            records: &self.records()[..self.form.stem],
        }
    }

    // The letters that repeat for ever.
    pub fn cycle(&self) -> Letters<'_>
        ensures { result.records.now ≡ drop self.now.form.stem (slip_of self.now) }
    {
        Letters {
            records: &self.records()[self.form.stem..],
        }
    }
}

impl fmt::Display for Counterexample {
    ghost use Rattle.std.specs.Prelude.{Some};
    ghost use Rattle.report.specs.Counterexamples.{counterexample_text};

    ghost output = { λ c. Some (counterexample_text c) };

    fn fmt<W: fmt::Write>(&self, f: &mut fmt::Formatter<W>) -> fmt::Result {
        write!(f, "stem loop\n{} {}\n", self.stem(), self.cycle())
    }
}
