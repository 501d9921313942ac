// The two numbers of a chart, held to the limits of charts.
ghost use Rattle.std.specs.Prelude.{◌≡◌, ◌&&◌, nat_lt, MatchResult};
ghost use Rattle.chart.specs.Automata.{Allowed};
ghost use Rattle.chart.specs.Refused.{SizeRefused};

use fault::ChartFault;

#[derive(Clone, Copy, PartialEq, Eq, Debug)]
pub struct Size {
    pub(crate) states: u8,
    pub(crate) letters: u8,
    ghost allowed: { Allowed states letters },
}

impl Size {
    // Refused by 4 where the numbers leave the limits of charts.
    pub(crate) fn new(states: u8, letters: u8) -> Result<Size, ChartFault>
        ensures { MatchResult result (λ s. (s.states ≡ states) × (s.letters ≡ letters)) (SizeRefused states letters) }
    {
        if states < 1 || states > 32 || letters < 1 || letters > 16 {
            return Err(ChartFault::Limits);
        }
        Ok(Size { states, letters })
    }

    // Are p and q among the states, and i among the letters?
    pub(crate) fn admits(&self, p: u8, i: u8, q: u8) -> bool
        ensures { result ≡ nat_lt p self.now.states && (nat_lt i self.now.letters && nat_lt q self.now.states) }
    {
        p < self.states && i < self.letters && q < self.states
    }
}
