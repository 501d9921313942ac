// A chart along a word as a map. Its nodes are the word's places with the chart's states, as place * 32 + state: a map's nodes
// are numbers.
ghost use Rattle.std.specs.Prelude.{◌≡◌, ◌/◌, ◌&&◌, ◌==◌, slice_index};
ghost use Rattle.member.specs.Bounds.{word_bounded};
ghost use Rattle.member.specs.Maps.{word_graph, word_node};

use crate::charts::ChartMap;
use chart::Chart;
use graph::Map;
use lasso::Word;

// It asks for states by the map of the chart.
#[derive_where(Clone, Copy)]
pub struct WordMap<'a, C> {
    states: ChartMap<'a, C>,
}

impl<'a, C: Chart> Map for WordMap<'a, C> {
    ghost graph = { λ m word stem. word_graph (C.Chart.meaning m.states.chart.now) word stem };

    ghost bounds = { λ m word stem. word_bounded (C.Chart.meaning m.states.chart.now) (C.Chart.limits m.states.chart.now) word stem };

    fn letters(&self, word: Word<'_>) -> u8 {
        self.states.letters(word)
    }

    fn is_node(&self, word: Word<'_>, v: u64) -> bool {
        word.check().is_ok()
            && v / 32 < word.elements.len() as u64
            && self.states.is_node(word, v % 32)
    }

    fn is_start(&self, word: Word<'_>, v: u64) -> bool {
        self.is_node(word, v) && v / 32 == 0 && self.states.is_start(word, v % 32)
    }

    fn is_marked(&self, word: Word<'_>, v: u64) -> bool {
        self.is_node(word, v) && self.states.is_marked(word, v % 32)
    }

    // At place 0 a node is its state.
    fn least_start(&self, word: Word<'_>, from: u64) -> Option<u64> {
        word.check().ok()?;
        self.states.least_start(word, from)
    }

    // At the place after that of v, with a state that v's steps to.
    fn least_next(&self, word: Word<'_>, v: u64, letter: u8, from: u64) -> Option<u64> {
        if !self.goes(word, v, letter) {
            return None;
        }
        let place = word.after((v / 32) as usize).ok()?;
        let base = place as u64 * 32;
        let least = from.saturating_sub(base);
        let state = self.states.least_next(word, v % 32, letter, least)?;
        Some(base + state)
    }
}

impl<'a, C: Chart> WordMap<'a, C> {
    // The chart that is lent.
    pub fn new(chart: &'a C) -> WordMap<'a, C>
        ensures { result.states.chart.now ≡ chart.now }
    {
        WordMap {
            states: ChartMap::new(chart),
        }
    }

    // Is v a node, with the letter at its place?
    fn goes(&self, word: Word<'_>, v: u64, letter: u8) -> bool
        ensures { result ≡ word_node (C.Chart.meaning self.now.states.chart.now) word.entry.elements.now word.entry.stem v && (letter == slice_index word.entry.elements.now (v / 32)) }
    {
        self.is_node(word, v) && letter == word.elements[(v / 32) as usize]
    }
}
