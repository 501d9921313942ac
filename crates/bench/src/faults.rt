// Why a call on a bench is refused.
ghost use Rattle.std.specs.Prelude.{◌≡◌};
ghost use Rattle.bench.specs.Refusals.{bench_refusal};
ghost use Rattle.bench.specs.declared.faults.BenchFault.TheVariants as faults;

use fault::{ChartFault, Fault, Refusal};
use ranked::InstanceFault;
use records::SearchFault;
use slip::Breach;

// A bench, on which a duty is held against a rule, is refused.
#[derive(Clone, Copy, PartialEq, Eq, Debug)]
pub enum BenchFault {
    // one of the two charts is
    Chart(ChartFault),
    // the two do not go together
    Instance(InstanceFault),
    // the room is not from 1 to 65,536, or a lent table does not have exactly the records that the room asks for
    Room,
    // the slip put has more records than the table, or its loop place does not go with its kind and its records
    Shape,
    // there is a slip already
    Occupied,
    // there is no slip
    Vacant,
    // the slip is not passed
    Unpassed,
    // the search of their ranked graph is
    Search(SearchFault),
    // the slip breaks a rule
    Broken(Breach),
}

impl From<ChartFault> for BenchFault {
    ghost from_gives = { λ e r. r ≡ faults.Chart e };

    fn from(e: ChartFault) -> BenchFault {
        BenchFault::Chart(e)
    }
}

impl From<InstanceFault> for BenchFault {
    ghost from_gives = { λ e r. r ≡ faults.Instance e };

    fn from(e: InstanceFault) -> BenchFault {
        BenchFault::Instance(e)
    }
}

impl From<SearchFault> for BenchFault {
    ghost from_gives = { λ e r. r ≡ faults.Search e };

    fn from(e: SearchFault) -> BenchFault {
        BenchFault::Search(e)
    }
}

impl Fault for BenchFault {
    ghost told = { bench_refusal };

    fn refusal(&self) -> Refusal {
        match *self {
            BenchFault::Chart(e) => e.refusal(),
            BenchFault::Instance(e) => e.refusal(),
            BenchFault::Room => Refusal::plain(7),
            BenchFault::Shape => Refusal::plain(9),
            BenchFault::Occupied => Refusal::plain(10),
            BenchFault::Vacant => Refusal::plain(11),
            BenchFault::Unpassed => Refusal::plain(12),
            BenchFault::Search(e) => e.refusal(),
            BenchFault::Broken(e) => Refusal {
                number: 14,
                place: e.place,
                rule: Some(e.rule.told()),
            },
        }
    }
}
