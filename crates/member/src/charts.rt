// A chart as a map: its states and its steps. It is the same for every word.
ghost use Rattle.std.specs.Prelude.{◌≡◌};
ghost use Rattle.numbers.specs.Least.{Least};
ghost use Rattle.member.specs.Bounds.{chart_bounded};
ghost use Rattle.member.specs.Maps.{chart_graph};

use chart::Chart;
use graph::Map;
use lasso::Word;

#[derive_where(Clone, Copy)]
pub struct ChartMap<'a, C> {
    pub(crate) chart: &'a C,
}

impl<'a, C: Chart> Map for ChartMap<'a, C> {
    ghost graph = { λ m word stem. chart_graph (C.Chart.meaning m.chart.now) };

    ghost bounds = { λ m word stem. chart_bounded (C.Chart.meaning m.chart.now) (C.Chart.limits m.chart.now) };

    fn letters(&self, word: Word<'_>) -> u8 {
        self.chart.letters()
    }

    fn is_node(&self, word: Word<'_>, v: u64) -> bool {
        v < self.chart.states() as u64
    }

    fn is_start(&self, word: Word<'_>, v: u64) -> bool {
        self.has_start(v)
    }

    fn is_marked(&self, word: Word<'_>, v: u64) -> bool {
        u8::try_from(v).is_ok_and(|q| self.chart.is_marked(q))
    }

    fn least_start(&self, word: Word<'_>, from: u64) -> Option<u64> {
        self.first_start(from)
    }

    fn least_next(&self, word: Word<'_>, v: u64, letter: u8, from: u64) -> Option<u64> {
        self.first_step(v, letter, from)
    }
}

impl<'a, C: Chart> ChartMap<'a, C> {
    // The chart that is lent.
    pub fn new(chart: &'a C) -> ChartMap<'a, C>
        ensures { result.chart.now ≡ chart.now }
    {
        ChartMap { chart }
    }

    // Is q a start? It is the map's question without a word, for the look-up.
    fn has_start(&self, q: u64) -> bool
        ensures { result ≡ (C.Chart.meaning self.now.chart.now).start q }
    {
        u8::try_from(q).is_ok_and(|q| self.chart.is_start(q))
    }

    // Is there a step from p by the letter to q?
    fn has_step(&self, p: u64, letter: u8, q: u64) -> bool
        ensures { result ≡ (C.Chart.meaning self.now.chart.now).step p letter q }
    {
        match (u8::try_from(p), u8::try_from(q)) {
            (Ok(p), Ok(q)) => self.chart.has_step(p, letter, q),
            _ => false,
        }
    }

    // The least start that is not below `from`.
    fn first_start(&self, from: u64) -> Option<u64>
        ensures { Least (C.Chart.meaning self.now.chart.now).start from result }
    {
        (from..32).find(|&q| self.has_start(q))
    }

    // The least state not below `from` that p steps to by the letter.
    fn first_step(&self, p: u64, letter: u8, from: u64) -> Option<u64>
        ensures { Least ((C.Chart.meaning self.now.chart.now).step p letter) from result }
    {
        (from..32).find(|&q| self.has_step(p, letter, q))
    }
}
