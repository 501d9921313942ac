// Why a question on the words that a chart takes is refused.
ghost use Rattle.std.specs.Prelude.{◌≡◌};
ghost use Rattle.member.specs.Refusals.{member_refusal};
ghost use Rattle.member.specs.declared.faults.MemberFault.TheVariants as faults;

use fault::{Fault, Refusal};
use lasso::LassoFault;
use records::SearchFault;

#[derive(Clone, Copy, PartialEq, Eq, Debug)]
pub enum MemberFault {
    // the word is
    Word(LassoFault),
    // the survey of its graph is
    Search(SearchFault),
}

impl From<LassoFault> for MemberFault {
    ghost from_gives = { λ e r. r ≡ faults.Word e };

    fn from(e: LassoFault) -> MemberFault {
        MemberFault::Word(e)
    }
}

impl From<SearchFault> for MemberFault {
    ghost from_gives = { λ e r. r ≡ faults.Search e };

    fn from(e: SearchFault) -> MemberFault {
        MemberFault::Search(e)
    }
}

impl Fault for MemberFault {
    ghost told = { member_refusal };

    fn refusal(&self) -> Refusal {
        match *self {
            MemberFault::Word(e) => e.refusal(),
            MemberFault::Search(e) => e.refusal(),
        }
    }
}
