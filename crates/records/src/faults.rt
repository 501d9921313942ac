// Why the search of a graph is refused.
ghost use Rattle.std.specs.Prelude.{◌≡◌};
ghost use Rattle.records.specs.Refusals.{search_refusal};

use fault::{Fault, Refusal};

#[derive(Clone, Copy, PartialEq, Eq, Debug)]
pub enum SearchFault {
    // the work table has no record, or more than 65,536; or a lasso is to be written into fewer than twice as many
    Table,
    // the reachable nodes are more than the records of the work table
    Full,
}

impl Fault for SearchFault {
    ghost told = { search_refusal };

    fn refusal(&self) -> Refusal {
        match *self {
            SearchFault::Table => Refusal::plain(7),
            SearchFault::Full => Refusal::plain(13),
        }
    }
}
