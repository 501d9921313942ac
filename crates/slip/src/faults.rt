// Why a slip is not made.
ghost use Rattle.std.specs.Prelude.{◌≡◌};
ghost use Rattle.slip.specs.Refusals.{slip_refusal};
ghost use Rattle.slip.specs.declared.faults.SlipFault.TheVariants as faults;

use fault::{Fault, Refusal};
use lasso::LassoFault;

#[derive(Clone, Copy, PartialEq, Eq, Debug)]
pub enum SlipFault {
    // it has more records than a lasso may have elements
    Lasso(LassoFault),
    // its loop place does not go with its kind: for keep it is 0, for break it is that of a record
    Shape,
}

impl From<LassoFault> for SlipFault {
    ghost from_gives = { λ e r. r ≡ faults.Lasso e };

    fn from(e: LassoFault) -> SlipFault {
        SlipFault::Lasso(e)
    }
}

impl Fault for SlipFault {
    ghost told = { slip_refusal };

    fn refusal(&self) -> Refusal {
        match *self {
            SlipFault::Lasso(e) => e.refusal(),
            SlipFault::Shape => Refusal::plain(9),
        }
    }
}
