// A slip over records that are lent.
ghost use Rattle.std.specs.Prelude.{◌≡◌, ◌<◌, ◌≤◌, length, MatchResult};
ghost use Rattle.slip.specs.Refused.{TooMany};
ghost use Rattle.slip.specs.Shapes.{stems};
ghost use Rattle.slip.specs.declared.faults.SlipFault.TheVariants as faults;

use crate::faults::SlipFault;
use crate::kinds::Kind;
use lasso::LassoFault;
use records::Record;

// The loop place of a slip is below this number: it is 0 for keep, and the place of one of so many records for break.
pub fn stems(kind: Kind, count: usize) -> usize
    ensures { result ≡ stems kind count }
{
    match kind {
        Kind::Keep => 1,
        Kind::Break => count,
    }
}

// Records, and the place from which they repeat for ever, which is 0 where they show keep.
#[derive(Clone, Copy)]
pub struct Slip<'a> {
    pub(crate) kind: Kind,
    pub(crate) stem: usize,
    pub(crate) records: &'a [Record],
    ghost placed: { stem < stems kind (length records.now) },
    ghost few: { length records.now ≤ 131072 },
}

// A slip has at most as many records as a lasso may have elements; a keep slip may have none.
fn check_count(count: usize) -> Result<(), LassoFault>
    ensures { MatchResult result (λ _. count ≤ 131072) (TooMany count) }
{
    if count <= 131_072 {
        Ok(())
    } else {
        Err(LassoFault::Limits)
    }
}

// Does the loop place go with the kind?
fn check_stem(kind: Kind, stem: usize, count: usize) -> Result<(), SlipFault>
    ensures { MatchResult result (λ _. stem < stems kind count) (λ e. (e ≡ faults.Shape) × (stems kind count ≤ stem)) }
{
    if stem < stems(kind, count) {
        Ok(())
    } else {
        Err(SlipFault::Shape)
    }
}

impl<'a> Slip<'a> {
    ghost use Rattle.slip.specs.Certificates.{content};
    ghost use Rattle.slip.specs.Refused.{SlipRefused};
    ghost use Rattle.slip.specs.Shapes.{Shaped};

    // A slip over lent records, which are not altered; a keep slip may have none. Refused by 8 (`Lasso`) where there are more than 131,072,
    // then by 9 (`Shape`) where the loop place is not 0 for keep, or not below their number for break.
    pub fn new(kind: Kind, stem: usize, records: &'a [Record]) -> Result<Slip<'a>, SlipFault>
        ensures { MatchResult result (λ s. Shaped kind (length records.now) stem × (content s ≡ record { kind = kind; stem = stem; records = records.now })) (SlipRefused kind (length records.now) stem) }
    {
        check_count(records.len())?;
        check_stem(kind, stem, records.len())?;
        Ok(Slip {
            kind,
            stem,
            records,
        })
    }
}
