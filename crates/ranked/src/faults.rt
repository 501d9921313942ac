// Why a duty and a rule do not go together.
ghost use Rattle.std.specs.Prelude.{◌≡◌};
ghost use Rattle.ranked.specs.Refusals.{instance_refusal};

use fault::{Fault, Refusal};

#[derive(Clone, Copy, PartialEq, Eq, Debug)]
pub enum InstanceFault {
    // the charts differ in letters
    Letters,
    // the rule has more than 6 states
    States,
}

impl Fault for InstanceFault {
    ghost told = { instance_refusal };

    fn refusal(&self) -> Refusal {
        match *self {
            InstanceFault::Letters => Refusal::plain(5),
            InstanceFault::States => Refusal::plain(6),
        }
    }
}
