// A chart's answers, asked once and kept: what comes after asks no chart.
ghost use Rattle.std.specs.Prelude.{◌≡◌, ℕ, ◌/◌, ◌%◌, ◌<◌, slice_index};
ghost use Rattle.chart.specs.Automata.{Limits};
ghost use Rattle.chart.specs.Kinds.{rowwise};
ghost use Rattle.numbers.specs.Bits.{bit};

use crate::sets::members;
use chart::Chart;

#[derive(Drop)]
pub(crate) struct Snapshot {
    pub(crate) states: u8,
    pub(crate) letters: u8,
    // sets of states
    pub(crate) starts: u32,
    pub(crate) marks: u32,
    // row p * 16 + i is the set of the states that state p steps to by letter i; no chart has more than 32 states or 16 letters
    rows: [u32; 512],
    ghost limits: { Limits (rowwise states letters 16 starts marks rows) },
}

// The set of the chart's starts.
fn starts<C: Chart>(chart: &C) -> u32
    ensures { (q : ℕ) → bit result q ≡ (C.Chart.meaning chart.now).start q }
{
    members(|q| chart.is_start(q))
}

// The set of its marked states.
fn marks<C: Chart>(chart: &C) -> u32
    ensures { (q : ℕ) → bit result q ≡ (C.Chart.meaning chart.now).mark q }
{
    members(|q| chart.is_marked(q))
}

// The set of the states that p steps to by letter i.
fn steps<C: Chart>(chart: &C, p: u8, i: u8) -> u32
    ensures { (q : ℕ) → bit result q ≡ (C.Chart.meaning chart.now).step p i q }
{
    members(|q| chart.has_step(p, i, q))
}

fn rows<C: Chart>(chart: &C) -> [u32; 512]
    ensures { (k q : ℕ) → k < 512 → bit (slice_index result k) q ≡ (C.Chart.meaning chart.now).step (k / 16) (k % 16) q }
{
    let mut rows = [0u32; 512];
    for (k, row) in rows.iter_mut().enumerate() {
        *row = steps(chart, (k / 16) as u8, (k % 16) as u8);
    }
    rows
}

impl Snapshot {
    ghost use Rattle.std.specs.Prelude.{◌≡◌, ℕ, ◌<◌};
    ghost use Rattle.numbers.specs.Bits.{bit};
    ghost use Rattle.ranked.specs.Kept.{kept};

    // It tells what the chart means.
    pub(crate) fn new<C: Chart>(chart: &C) -> Snapshot
        ensures { kept result ≡ C.Chart.meaning chart.now }
    {
        Snapshot {
            states: chart.states(),
            letters: chart.letters(),
            starts: starts(chart),
            marks: marks(chart),
            rows: rows(chart),
        }
    }

    // The set of the states that p steps to by letter i.
    pub(crate) fn steps(&self, p: u8, i: u8) -> u32
        requires { (p < 32) × (i < self.now.letters) }
        ensures { (q : ℕ) → bit result q ≡ (kept self.now).step p i q }
    {
        self.rows[p as usize * 16 + i as usize]
    }
}
