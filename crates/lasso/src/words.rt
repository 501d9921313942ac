// Words: lassos of letters, which charts know by their numbers.
ghost use Rattle.std.specs.Prelude.{MatchResult};
ghost use Rattle.lasso.specs.Refused.{WordRefused};
ghost use Rattle.lasso.specs.Words.{IsWord};

use crate::faults::LassoFault;
use crate::positions::Lasso;

pub type Word<'a> = Lasso<'a, u8>;

// No letters, for what is the same for every word.
pub const NO_WORD: Word<'static> = Lasso {
    elements: &[],
    stem: 0,
};

impl<'a> Word<'a> {
    // Refused by `Limits` as `check` does, then by `Letter` where some letter is not below `letters`.
    pub fn check_letters(&self, letters: u8) -> Result<(), LassoFault>
        ensures { MatchResult result (λ _. IsWord letters self.now.elements.now self.now.stem) (WordRefused letters self.now.elements.now self.now.stem) }
    {
        self.check()?;
        if self.elements.iter().all(|&letter| letter < letters) {
            Ok(())
        } else {
            Err(LassoFault::Letter)
        }
    }
}
