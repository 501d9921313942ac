// The interface of every kind of chart. The layers above see a chart by its meaning and nothing else.
ghost use Rattle.std.specs.Prelude.{◌≡◌};
ghost use Rattle.chart.specs.Automata.{Automaton, Limits};

pub trait Chart {
    // the automaton that the chart stands for
    ghost meaning: { Self → Automaton };

    // it keeps the limits of charts
    ghost limits: { (c : Self) → Limits (meaning c) };

    // The number of states.
    fn states(&self) -> u8
        ensures { result ≡ (meaning self.now).states };

    // The number of letters.
    fn letters(&self) -> u8
        ensures { result ≡ (meaning self.now).letters };

    // Is state q a start?
    fn is_start(&self, q: u8) -> bool
        ensures { result ≡ (meaning self.now).start q };

    // Is state q marked?
    fn is_marked(&self, q: u8) -> bool
        ensures { result ≡ (meaning self.now).mark q };

    // Is there a step from state p by letter i to state q?
    fn has_step(&self, p: u8, i: u8, q: u8) -> bool
        ensures { result ≡ (meaning self.now).step p i q };
}
