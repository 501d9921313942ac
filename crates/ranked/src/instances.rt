// A duty and a rule that go together: an instance of the question whether the rule takes all that the duty takes.
ghost use Rattle.std.specs.Prelude.{◌≡◌, ◌≤◌};

use crate::faults::InstanceFault;
use chart::{Chart, Fitted};

#[derive(Drop)]
pub struct Instance<D, R> {
    pub(crate) duty: Fitted<D>,
    pub(crate) rule: Fitted<R>,
    ghost same_letters: { duty.size.letters ≡ rule.size.letters },
    ghost few_states: { rule.size.states ≤ 6 },
}

impl<D: Chart + Drop, R: Chart + Drop> Instance<D, R> {
    ghost use Rattle.std.specs.Prelude.{MatchResult};
    ghost use Rattle.ranked.specs.Instances.{NewInstance};
    ghost use Rattle.ranked.specs.Together.{InstanceRefused};

    // The two charts, which are a system and its specification. Refused by 5 where they differ in letters, then by 6 where the rule has
    // more than 6 states. A refusal lets the charts go.
    pub fn new(duty: D, rule: R) -> Result<Instance<D, R>, InstanceFault>
        ensures { MatchResult result (NewInstance D.Chart.meaning R.Chart.meaning duty rule) (InstanceRefused (D.Chart.meaning duty) (R.Chart.meaning rule)) }
    {
        let duty = Fitted::new(duty);
        let rule = Fitted::new(rule);
        if duty.letters() != rule.letters() {
            return Err(InstanceFault::Letters);
        }
        if rule.states() > 6 {
            return Err(InstanceFault::States);
        }
        Ok(Instance { duty, rule })
    }
}
