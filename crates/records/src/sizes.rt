// How many records a work table may have.
ghost use Rattle.std.specs.Prelude.{◌≡◌, length, MatchResult};
ghost use Rattle.records.specs.Sizes.{Allowed, TableRefused};

use crate::faults::SearchFault;
use crate::record::Record;

// Refused by 7 where the table has no record, or more than 65,536.
pub fn check_table(work: &[Record]) -> Result<(), SearchFault>
    ensures { MatchResult result (λ _. Allowed (length work.now)) (TableRefused (length work.now)) }
{
    if work.is_empty() || work.len() > 65536 {
        return Err(SearchFault::Table);
    }
    Ok(())
}
