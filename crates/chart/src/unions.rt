// The union of two charts, each of any kind: the states of the first, then those of the second. The seam is where the
// second's begin.
ghost use Rattle.std.specs.Prelude.{◌≡◌, ◌+◌, ◌≤◌, MatchResult};

use crate::fitting::Fitted;
use crate::interface::Chart;
use fault::ChartFault;

#[derive(Drop)]
pub struct Union<A, B> {
    first: Fitted<A>,
    second: Fitted<B>,
    ghost same_letters: { first.size.letters ≡ second.size.letters },
    ghost few_states: { first.size.states + second.size.states ≤ 32 },
}

impl<A: Chart, B: Chart> Chart for Union<A, B> {
    ghost use Rattle.chart.specs.Fits.{union_of_limits};
    ghost use Rattle.chart.specs.Meanings.{union_of};

    ghost meaning = { union_of A.Chart.meaning B.Chart.meaning };

    ghost limits = { union_of_limits A.Chart.meaning B.Chart.meaning };

    fn states(&self) -> u8 {
        self.first.states() + self.second.states()
    }

    fn letters(&self) -> u8 {
        self.first.letters()
    }

    fn is_start(&self, q: u8) -> bool {
        match q.checked_sub(self.first.states()) {
            None => self.first.is_start(q),
            Some(q) => self.second.is_start(q),
        }
    }

    // Apart from `is_start`, since each is one question of the interface, and two closures for it, one for each of the
    // charts, would be longer.
    fn is_marked(&self, q: u8) -> bool {
        match q.checked_sub(self.first.states()) {
            None => self.first.is_marked(q),
            Some(q) => self.second.is_marked(q),
        }
    }

    fn has_step(&self, p: u8, i: u8, q: u8) -> bool {
        let seam = self.first.states();
        match (p.checked_sub(seam), q.checked_sub(seam)) {
            (None, _) => self.first.has_step(p, i, q),
            (Some(p), Some(q)) => self.second.has_step(p, i, q),
            _ => false,
        }
    }
}

impl<A: Chart + Drop, B: Chart + Drop> Union<A, B> {
    ghost use Rattle.std.specs.Prelude.{◌≡◌, MatchResult};
    ghost use Rattle.chart.specs.Kinds.{Unites, union};
    ghost use Rattle.chart.specs.Refused.{UnionRefused};
    ghost use Rattle.chart.specs.Meanings.{union_of};

    // Both charts side by side. Refused by 4 where their letters differ or they have more than 32 states together; a refusal lets the
    // charts go.
    pub fn new(first: A, second: B) -> Result<Union<A, B>, ChartFault>
        ensures { MatchResult result (λ u. Unites (A.Chart.meaning first) (B.Chart.meaning second) × (union_of A.Chart.meaning B.Chart.meaning u ≡ union (A.Chart.meaning first) (B.Chart.meaning second))) (UnionRefused (A.Chart.meaning first) (B.Chart.meaning second)) }
    {
        let first = Fitted::new(first);
        let second = Fitted::new(second);
        if first.letters() != second.letters() || first.states() + second.states() > 32 {
            return Err(ChartFault::Limits);
        }
        Ok(Union { first, second })
    }
}
