// Lassos over lent elements: a stem and a loop that repeats for ever, by positions, which never end, and by places.
ghost use Rattle.std.specs.Prelude.{length, MatchResult};

use crate::faults::LassoFault;

// Elements, of which those behind the stem repeat for ever. Any elements and stem may be asked about.
#[derive_where(Clone, Copy)]
#[derive(PartialEq, Eq, Debug)]
pub struct Lasso<'a, T> {
    pub elements: &'a [T],
    pub stem: usize,
}

impl<'a, T> Lasso<'a, T> {
    ghost use Rattle.lasso.specs.Found.{PlaceAt, PlaceAfter, ElementAt};
    ghost use Rattle.lasso.specs.Positions.{IsLasso};
    ghost use Rattle.lasso.specs.Refused.{IsRefused};

    // Refused by 8 (`Limits`) where there is no element or more than 131,072, or the stem is not below the length.
    pub fn check(&self) -> Result<(), LassoFault>
        ensures { MatchResult result (λ _. IsLasso (length self.now.elements.now) self.now.stem) (IsRefused self.now) }
    {
        let n = self.elements.len();
        if n <= 131_072 && self.stem < n {
            Ok(())
        } else {
            Err(LassoFault::Limits)
        }
    }

    // The place at which a position stands, which may be any number: those past the last place go round the loop. Refused as `check` is.
    pub fn place(&self, position: usize) -> Result<usize, LassoFault>
        ensures { MatchResult result (PlaceAt (length self.now.elements.now) self.now.stem position) (IsRefused self.now) }
    {
        self.check()?;
        let n = self.elements.len();
        if position < n {
            return Ok(position);
        }
        Ok(self.stem + (position - self.stem) % (n - self.stem))
    }

    // The place after a place. Refused as `check` is.
    pub fn after(&self, at: usize) -> Result<usize, LassoFault>
        ensures { MatchResult result (PlaceAfter (length self.now.elements.now) self.now.stem at) (IsRefused self.now) }
    {
        self.check()?;
        if at < self.elements.len() - 1 {
            Ok(at + 1)
        } else {
            Ok(self.stem)
        }
    }

    // The element at a position, which may be any number. It is lent, of whatever type; copying is the caller's. Refused as `check` is.
    pub fn element(&self, position: usize) -> Result<&'a T, LassoFault>
        ensures { MatchResult result (λ x. ElementAt self.now.elements.now self.now.stem position x.now) (IsRefused self.now) }
    {
        let at = self.place(position)?;
        Ok(&self.elements[at])
    }
}
