// A chart with its two numbers kept beside it, so that the layers above can speak of plain numbers, and asking for
// one asks nothing of the chart.
use crate::interface::Chart;
use crate::sizes::Size;

#[derive(Drop)]
pub struct Fitted<C> {
    chart: C,
    pub(crate) size: Size,
}

impl<C: Chart> Chart for Fitted<C> {
    ghost use Rattle.chart.specs.Fits.{fitted_of_limits};
    ghost use Rattle.chart.specs.Meanings.{fitted_of};

    ghost meaning = { fitted_of C.Chart.meaning };

    ghost limits = { fitted_of_limits C.Chart.meaning };

    fn states(&self) -> u8 {
        self.size.states
    }

    fn letters(&self) -> u8 {
        self.size.letters
    }

    fn is_start(&self, q: u8) -> bool {
        q < self.size.states && self.chart.is_start(q)
    }

    // Apart from `is_start`, since each is one question of the interface, and a closure for it would be longer.
    fn is_marked(&self, q: u8) -> bool {
        q < self.size.states && self.chart.is_marked(q)
    }

    fn has_step(&self, p: u8, i: u8, q: u8) -> bool {
        self.size.admits(p, i, q) && self.chart.has_step(p, i, q)
    }
}

impl<C: Chart> Fitted<C> {
    ghost use Rattle.std.specs.Prelude.{◌≡◌};
    ghost use Rattle.chart.specs.Meanings.{fitted_of};

    // It means what the chart means, and keeps the chart's numbers.
    pub fn new(chart: C) -> Fitted<C>
        ensures means { fitted_of C.Chart.meaning result ≡ C.Chart.meaning chart }
        ensures states { result.size.states ≡ (C.Chart.meaning chart).states }
        ensures letters { result.size.letters ≡ (C.Chart.meaning chart).letters }
    {
        let states = chart.states();
        let letters = chart.letters();
        let size = Size { states, letters };
        Fitted { chart, size }
    }
}
