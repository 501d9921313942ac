// The bench itself, and how it is made.
ghost use Rattle.std.specs.Prelude.{◌≡◌, ◌*◌, ◌<◌, ◌≤◌};
ghost use Rattle.records.specs.Sizes.{Allowed};
ghost use Rattle.bench.specs.States.{count_of, stem_of, stems_of};

use crate::faults::BenchFault;
use crate::states::State;
use chart::Chart;
use ranked::{Instance, RankedMap};
use records::Record;

// A duty, a rule, a room for so many nodes of their ranked graph, and what is known of the slip, whose records stand in a table
// that the caller lends to each call.
#[derive(Drop)]
pub struct Bench<D, R> {
    pub(crate) instance: Instance<D, R>,
    pub(crate) room: usize,
    pub(crate) state: State,
    ghost allowed: { Allowed room },
    // the slip fits into the table, and its loop place goes with its kind
    ghost within: { count_of state ≤ 2 * room },
    ghost placed: { stem_of state < stems_of state },
}

impl<D: Chart + Drop, R: Chart + Drop> Bench<D, R> {
    ghost use Rattle.std.specs.Prelude.{List, [], IfOk, MatchResult};
    ghost use Rattle.bench.specs.Calls.{Sized};
    ghost use Rattle.bench.specs.Histories.{LedTo};
    ghost use Rattle.bench.specs.Making.{NewBench, NewRefused};
    ghost use Rattle.bench.specs.Tellings.{Status};

    // The work of `new`.
    fn set_up(duty: D, rule: R, room: usize) -> Result<Bench<D, R>, BenchFault>
        ensures { MatchResult result (NewBench D.Chart.meaning R.Chart.meaning duty rule room) (NewRefused (D.Chart.meaning duty) (R.Chart.meaning rule) room) }
    {
        let instance = Instance::new(duty, rule)?;
        if room == 0 || room > 65_536 {
            return Err(BenchFault::Room);
        }
        Ok(Bench {
            instance,
            room,
            state: State::Empty,
        })
    }

    // An empty bench for a duty and a rule, which are a system and its specification, and a room for so many nodes of their ranked graph.
    //
    // Refused by 5 where the charts differ in letters, then by 6 where the rule has more than 6 states, then by 7 where the room is not
    // from 1 to 65,536. A refusal lets the charts go.
    pub fn new(duty: D, rule: R, room: usize) -> Result<Bench<D, R>, BenchFault>
        ensures answer { MatchResult result (NewBench D.Chart.meaning R.Chart.meaning duty rule room) (NewRefused (D.Chart.meaning duty) (R.Chart.meaning rule) room) }
        ensures law { IfOk result (λ s. (table : List Record) → Sized room table → LedTo D.Chart.meaning R.Chart.meaning (D.Chart.meaning duty) (R.Chart.meaning rule) room [] Status.empty s table) }
    {
        Bench::set_up(duty, rule, room)
    }
}

impl<D: Chart, R: Chart> Bench<D, R> {
    ghost use Rattle.ranked.specs.Made.{Made};
    ghost use Rattle.bench.specs.Benches.{duty_on, rule_on};
    ghost use Rattle.bench.specs.Histories.{AlteredIsNotLedTo, OneTold, StateTold};
    ghost use Rattle.bench.specs.Tellings.{AskedAlike};

    // The ranked graph of the two charts, which are asked anew.
    pub(crate) fn map(&self) -> RankedMap
        ensures { Made (duty_on D.Chart.meaning self.now) (rule_on R.Chart.meaning self.now) result }
    {
        RankedMap::new(&self.instance)
    }

    // The work of `state`.
    fn held(&self) -> State
        ensures { result ≡ self.now.state }
    {
        self.state
    }

    // Whether it has a slip, and which. It is what the calls tell that were made since the bench was: a function of what was asked,
    // of judge's answers and of the tables that judge left, up to how many of the first records of such a table a break slip of
    // judge has, and its loop place; of one bench they tell one thing.
    pub fn state(&self) -> State
        ensures answer { result ≡ self.now.state }
        ensures told { StateTold D.Chart.meaning R.Chart.meaning self.now result }
        ensures one { OneTold D.Chart.meaning R.Chart.meaning self.now }
        ensures altered { AlteredIsNotLedTo D.Chart.meaning R.Chart.meaning self.now }
        ensures alike { AskedAlike }
    {
        self.held()
    }
}
