// The least of the numbers that are told by a choice for each of their parts. It is found part by part, whatever the
// number of choices.
use crate::digits::{digit, flag_at, joined};
use numbers::{contains, least_member};

#[derive(Clone, Copy)]
pub(crate) struct Choices {
    // for each state of the rule the set of the digits that it may have: its rank and one more, or 0 for none
    pub(crate) digits: [u16; 6],
    // the states of the rule that are owed if their rank is even
    pub(crate) owing: u32,
    pub(crate) turn: bool,
    // the states that the duty may be in
    pub(crate) duty: u32,
}

impl Choices {
    ghost use Rattle.std.specs.Prelude.{◌≡◌, suc, ◌*◌, ◌%◌, ◌^◌, ◌<◌, ◌&&◌, slice_index};
    ghost use Rattle.numbers.specs.Bits.{bit};
    ghost use Rattle.numbers.specs.Least.{Least};
    ghost use Rattle.ranked.specs.Digits.{digit, drawn};
    ghost use Rattle.ranked.specs.Choices.{owed, upper, rest, chosen};

    // `best`, the least ranks of the states below q that are not below those of `from`, if the digit of state q of `from` is in
    // its set; else none.
    fn least_below(self, q: u8, from: u64, best: Option<u64>) -> Option<u64>
        requires state { q < 6 }
        requires best { Least (drawn self.digits q) (from % 2 ^ (4 * q)) best }
        ensures { Least (λ x. bit (slice_index self.digits q) (digit from q) && drawn self.digits q x) (from % 2 ^ (4 * q)) result }
    {
        if contains(self.digits[q as usize] as u32, digit(from, q)) {
            best
        } else {
            None
        }
    }

    // The least ranks of the states up to q that are not below those of `from`: `best` and `low` are the least ranks of the
    // states below q that are not below those of `from`, and that there are.
    fn raise(self, q: u8, from: u64, best: Option<u64>, low: Option<u64>) -> Option<u64>
        requires state { q < 6 }
        requires best { Least (drawn self.digits q) (from % 2 ^ (4 * q)) best }
        requires low { Least (drawn self.digits q) 0 low }
        ensures { Least (drawn self.digits (suc q)) (from % 2 ^ (4 * suc q)) result }
    {
        let set = self.digits[q as usize] as u32;
        let digit = digit(from, q);
        if let Some(rest) = self.least_below(q, from, best) {
            return Some(joined(digit, q, rest));
        }
        let next = least_member(set, digit + 1)?;
        let rest = low?;
        Some(joined(next, q, rest))
    }

    // The least ranks that are not below `from`.
    fn least_ranks(self, from: u64) -> Option<u64>
        ensures { Least (drawn self.digits 6) from result }
    {
        if from >= 1 << 24 {
            return None;
        }
        let mut best = Some(0u64);
        let mut low = Some(0u64);
        for q in 0..6u8 {
            best = self.raise(q, from, best, low);
            low = self.raise(q, 0, low, low);
        }
        best
    }

    // May the states have these ranks?
    fn admits(self, ranks: u64) -> bool
        ensures { result ≡ drawn self.digits 6 ranks }
    {
        if ranks >= 1 << 24 {
            return false;
        }
        for q in 0..6u8 {
            if !contains(self.digits[q as usize] as u32, digit(ranks, q)) {
                return false;
            }
        }
        true
    }

    // The owed set that goes with the ranks.
    fn owed(self, ranks: u64) -> u64
        ensures { result ≡ owed self ranks }
    {
        let mut owed = 0u64;
        for q in 0..6u8 {
            owed += flag_at(
                digit(ranks, q) % 2 == 1 && contains(self.owing, q as u64),
                q,
            );
        }
        owed
    }

    // The owed set and the turn that go with the ranks.
    fn upper(self, ranks: u64) -> u64
        ensures { result ≡ upper self ranks }
    {
        self.owed(ranks) * 64 + flag_at(self.turn, 5)
    }

    // The least of what may stand below the ranks that is not below `from`.
    fn least_rest(self, ranks: u64, from: u64) -> Option<u64>
        ensures { Least (rest self ranks) from result }
    {
        let upper = self.upper(ranks);
        let duty = least_member(self.duty, from.saturating_sub(upper))?;
        Some(upper + duty)
    }

    // The least of what may stand below the ranks that is not below `from`, if the states may have these ranks.
    fn least_here(self, ranks: u64, from: u64) -> Option<u64>
        ensures { Least (λ x. drawn self.digits 6 ranks && rest self ranks x) from result }
    {
        if self.admits(ranks) {
            self.least_rest(ranks, from)
        } else {
            None
        }
    }

    // Is v one of the numbers?
    pub(crate) fn has(self, v: u64) -> bool
        ensures { result ≡ chosen self v }
    {
        if !self.admits(v / 4096) {
            return false;
        }
        match (v % 4096).checked_sub(self.upper(v / 4096)) {
            Some(state) => contains(self.duty, state),
            None => false,
        }
    }

    // The least of the numbers that is not below `from`.
    pub(crate) fn least(self, from: u64) -> Option<u64>
        ensures { Least (chosen self) from result }
    {
        let top = from / 4096;
        if let Some(rest) = self.least_here(top, from % 4096) {
            return Some(top * 4096 + rest);
        }
        let next = self.least_ranks(top + 1)?;
        let rest = self.least_rest(next, 0)?;
        Some(next * 4096 + rest)
    }
}
