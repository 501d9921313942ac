// The making of a ranked map asks the charts all that it ever asks them.
use crate::instances::Instance;
use crate::maps::RankedMap;
use crate::snapshots::Snapshot;
use chart::Chart;

impl RankedMap {
    ghost use Rattle.ranked.specs.Instances.{duty_in, rule_in};
    ghost use Rattle.ranked.specs.Made.{Made};

    // The ranked graph of an instance.
    pub fn new<D: Chart, R: Chart>(instance: &Instance<D, R>) -> RankedMap
        ensures { Made (duty_in D.Chart.meaning instance.now) (rule_in R.Chart.meaning instance.now) result }
    {
        RankedMap {
            duty: Snapshot::new(&instance.duty),
            rule: Snapshot::new(&instance.rule),
        }
    }
}
