// The rows of a chart, filled step by step.
ghost use Rattle.std.specs.Prelude.{◌≡◌, ℕ, ◌*◌, ◌<◌, ◌≤◌, true, ◌&&◌, length, ◌==◌, nat_lt, slice_index};
ghost use Rattle.text.specs.Documents.{tells_step};
ghost use Rattle.text.specs.Reading.{step_fits};

use crate::entries::{By, Entry, StepLine};
use crate::loading::Loaded;
use numbers::with;

// The caller's words as the rows of a chart: for each of its states a row for each of its letters. They are lent, since a
// loader takes no heap.
#[derive(Drop)]
pub struct Rows<'r> {
    pub chart: Loaded,
    pub cells: &'r mut [u32],
    ghost few: { chart.states ≤ 32 },
    ghost enough: { chart.states * chart.letters ≤ length cells.now },
}

impl Rows<'_> {
    ghost use Rattle.text.specs.Rows.{Adds, Fits, tells};

    // Empties the rows.
    pub(crate) fn clear(&mut self)
        ensures same_reference { self.new.cells.ghost_name ≡ self.old.cells.ghost_name }
        ensures chart { self.new.chart ≡ self.old.chart }
        ensures empty { (j : ℕ) → j < self.old.chart.states * self.old.chart.letters → slice_index self.new.cells.now j ≡ 0 }
        ensures past { (j : ℕ) → self.old.chart.states * self.old.chart.letters ≤ j → slice_index self.new.cells.now j ≡ slice_index self.old.cells.now j }
    {
        let count = self.chart.row_count();
        self.cells[..count].fill(0);
    }

    // A step by one letter.
    fn add_letter(&mut self, from: u8, i: u8, to: u8)
        requires from_within { from < self.old.chart.states }
        requires letter_within { i < self.old.chart.letters }
        requires to_within { to < self.old.chart.states }
        ensures { Adds self.old self.new (λ p j q. (from == p) && (i == j && to == q)) }
    {
        let at = from as usize * self.chart.letters as usize + i as usize;
        self.cells[at] = with(self.cells[at], to as u64);
    }

    // The steps by every letter.
    fn add_every(&mut self, from: u8, to: u8)
        requires from_within { from < self.old.chart.states }
        requires to_within { to < self.old.chart.states }
        ensures { Adds self.old self.new (λ p j q. (from == p) && (nat_lt j self.old.chart.letters && to == q)) }
    {
        for i in 0..self.chart.letters {
            self.add_letter(from, i, to);
        }
    }

    // The steps of a line.
    fn add_step(&mut self, step: StepLine)
        requires { step_fits self.old.chart.letters self.old.chart.states step ≡ true }
        ensures { Adds self.old self.new (tells_step self.old.chart.letters step) }
    {
        match step.by {
            By::Letter(i) => self.add_letter(step.from, i, step.to),
            By::Every => self.add_every(step.from, step.to),
        }
    }

    // What a line adds.
    pub(crate) fn add_entry(&mut self, entry: Entry)
        requires { Fits self.old.chart entry }
        ensures { Adds self.old self.new (tells self.old.chart.letters entry) }
    {
        if let Entry::Step(step) = entry {
            self.add_step(step);
        }
    }
}
