// Why a lasso is refused.
ghost use Rattle.std.specs.Prelude.{◌≡◌};
ghost use Rattle.lasso.specs.Refusals.{lasso_refusal};

use fault::{Fault, Refusal};

// A lasso, which is a stem and a loop that repeats for ever, is refused.
#[derive(Clone, Copy, PartialEq, Eq, Debug)]
pub enum LassoFault {
    // it has no element or more than 131,072, or its loop place is not below its length
    Limits,
    // it is a word, and a letter of it is none of the chart's
    Letter,
}

impl Fault for LassoFault {
    ghost told = { lasso_refusal };

    fn refusal(&self) -> Refusal {
        match *self {
            LassoFault::Limits | LassoFault::Letter => Refusal::plain(8),
        }
    }
}
