// The ranked graph of two charts as a map.
ghost use Rattle.std.specs.Prelude.{◌≡◌, ◌≤◌};

use crate::snapshots::Snapshot;
use graph::Map;
use lasso::Word;

#[derive(Drop)]
pub struct RankedMap {
    pub(crate) duty: Snapshot,
    pub(crate) rule: Snapshot,
    ghost same_letters: { duty.letters ≡ rule.letters },
    ghost few_states: { rule.states ≤ 6 },
}

// It is the same for every word.
impl Map for RankedMap {
    ghost use Rattle.rank.specs.Ranked.{ranked_graph};
    ghost use Rattle.ranked.specs.Maps.{duty_of, rule_of};
    ghost use Rattle.ranked.specs.Bounds.{ranked_bounded};

    ghost graph = { λ m word stem. ranked_graph (duty_of m) (rule_of m) };

    ghost bounds = { λ m word stem. ranked_bounded m };

    fn letters(&self, word: Word<'_>) -> u8 {
        self.duty.letters
    }

    fn is_node(&self, word: Word<'_>, v: u64) -> bool {
        self.has_node(v)
    }

    fn is_start(&self, word: Word<'_>, v: u64) -> bool {
        self.has_start(v)
    }

    fn is_marked(&self, word: Word<'_>, v: u64) -> bool {
        self.has_mark(v)
    }

    fn least_start(&self, word: Word<'_>, from: u64) -> Option<u64> {
        self.first_start(from)
    }

    fn least_next(&self, word: Word<'_>, v: u64, letter: u8, from: u64) -> Option<u64> {
        self.first_next(v, letter, from)
    }
}
