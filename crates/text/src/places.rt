// How far a text is read: the kind of line that comes next, and the chart's numbers so far.
ghost use Rattle.std.specs.Prelude.{◌≡◌, ℕ, ◌<◌, ◌||◌, if◌then◌else◌, ◌==◌, Some};
ghost use Rattle.numbers.specs.Bits.{bit};
ghost use Rattle.text.specs.Reading.{Holds, Moved, step_fits, first};
ghost use Rattle.text.specs.declared.entries.Entry.TheVariants.{State};

use crate::entries::{By, Entry, Stage, StateLine, StepLine};
use crate::loading::Loaded;
use numbers::with;

#[derive(Clone, Copy, PartialEq, Eq, Debug)]
pub struct Place {
    pub stage: Stage,
    pub chart: Loaded,
}

impl StepLine {
    // Is it among the chart's letters and states?
    fn fits(self, chart: Loaded) -> bool
        ensures { result ≡ step_fits chart.letters chart.states self }
    {
        let by = match self.by {
            By::Letter(i) => i < chart.letters,
            By::Every => true,
        };
        self.from < chart.states && by && self.to < chart.states
    }
}

impl Place {
    pub(crate) fn new() -> Place
        ensures { Holds result first }
    {
        Place {
            stage: Stage::AtTitle,
            chart: Loaded {
                states: 0,
                letters: 0,
                starts: 0,
                marks: 0,
            },
        }
    }

    // After a line that was only to be there.
    fn to(self, stage: Stage) -> Place
        ensures { result ≡ record { stage = stage; chart = self.chart } }
    {
        Place { stage, ..self }
    }

    fn take_state(self, state: StateLine) -> Option<Place>
        ensures { Moved self (State state) result }
    {
        let at = self.chart.states;
        if state.number != at || at >= 32 {
            return None;
        }
        let starts = with_if(self.chart.starts, at, state.start);
        let marks = with_if(self.chart.marks, at, state.mark);
        Some(Place {
            stage: Stage::AtStates,
            chart: Loaded {
                states: at + 1,
                starts,
                marks,
                ..self.chart
            },
        })
    }

    // The place after an entry, or none where the entry is out of range.
    pub(crate) fn take(self, entry: Entry) -> Option<Place>
        ensures { Moved self entry result }
    {
        let chart = self.chart;
        match entry {
            Entry::Title => Some(self.to(Stage::AtCount)),
            Entry::Count(letters) => (1..=16).contains(&letters).then_some(Place {
                stage: Stage::AtColumns,
                chart: Loaded { letters, ..chart },
            }),
            Entry::Columns => Some(self.to(Stage::AtStates)),
            Entry::State(state) => self.take_state(state),
            Entry::Heading => (chart.states >= 1).then_some(self.to(Stage::AtSteps)),
            Entry::Step(step) => step.fits(chart).then_some(self.to(Stage::AtSteps)),
        }
    }
}

// The set with q in it where `on` holds.
fn with_if(set: u32, q: u8, on: bool) -> u32
    requires { q < 32 }
    ensures { (i : ℕ) → bit result i ≡ (if on then (q == i) || bit set i else bit set i) }
{
    if on { with(set, q as u64) } else { set }
}
