// A map of the least and the greatest node that there can be. It is the same for every word.
ghost use Rattle.samples.specs.Ends.{ends, ends_bounded};

use graph::Map;
use lasso::Word;

// The nodes are 0 and 2^64 - 1, and both are starts. By each of two letters 0 leads to the other, and that one, if it loops,
// to itself.
#[derive(Clone, Copy)]
pub struct Ends {
    pub loops: bool,
    pub marked: bool,
}

impl Map for Ends {
    ghost graph = { λ m word stem. ends m.loops m.marked };

    ghost bounds = { λ m word stem. ends_bounded m.loops m.marked };

    fn letters(&self, word: Word<'_>) -> u8 {
        2
    }

    fn is_node(&self, word: Word<'_>, v: u64) -> bool {
        v == 0 || v == u64::MAX
    }

    fn is_start(&self, word: Word<'_>, v: u64) -> bool {
        self.is_node(word, v)
    }

    fn is_marked(&self, word: Word<'_>, v: u64) -> bool {
        self.marked && self.is_node(word, v)
    }

    fn least_start(&self, word: Word<'_>, from: u64) -> Option<u64> {
        Some(if from == 0 { 0 } else { u64::MAX })
    }

    fn least_next(&self, word: Word<'_>, v: u64, letter: u8, from: u64) -> Option<u64> {
        let leads = v == 0 || (self.loops && v == u64::MAX);
        (letter < 2 && leads).then_some(u64::MAX)
    }
}
