// A table chart: it reads its steps from rows that the caller lends.
ghost use Rattle.std.specs.Prelude.{◌≡◌, ◌+◌, ◌*◌, ◌<◌, ◌≤◌, ◌&&◌, length, MatchResult, nat_lt, slice_index};
ghost use Rattle.chart.specs.Automata.{Allowed};
ghost use Rattle.chart.specs.Fits.{fitted_limits};
ghost use Rattle.chart.specs.Kinds.{table, rowwise};
ghost use Rattle.chart.specs.Refused.{TableRefused};
ghost use Rattle.chart.specs.Meanings.{table_of};
ghost use Rattle.numbers.specs.Bits.{bit};

use crate::interface::Chart;
use crate::sizes::Size;
use fault::ChartFault;
use numbers::contains;

#[derive(Clone, Copy)]
pub struct Table<'a> {
    size: Size,
    starts: u32,
    marks: u32,
    rows: &'a [u32],
}

impl<'a> Chart for Table<'a> {
    ghost meaning = { table_of };

    ghost limits = { λ t. fitted_limits t.size.states t.size.letters (rowwise t.size.states t.size.letters t.size.letters t.starts t.marks t.rows.now) t.size.allowed };

    fn states(&self) -> u8 {
        self.size.states
    }

    fn letters(&self) -> u8 {
        self.size.letters
    }

    fn is_start(&self, q: u8) -> bool {
        self.has(self.starts, q)
    }

    fn is_marked(&self, q: u8) -> bool {
        self.has(self.marks, q)
    }

    fn has_step(&self, p: u8, i: u8, q: u8) -> bool {
        self.size.admits(p, i, q) && contains(self.row(p, i), q as u64)
    }
}

impl<'a> Table<'a> {
    // A chart of 1 to 32 states and 1 to 16 letters, with sets of starts and marks and, as row p * letters + i, the set of the states
    // that state p steps to by letter i: bit q stands for state q, and bits at or beyond the states are ignored. The rows are only read.
    //
    // Refused by 4 where the numbers leave these limits, then by 3 where the rows are fewer than states times letters.
    pub fn new(
        states: u8,
        letters: u8,
        starts: u32,
        marks: u32,
        rows: &'a [u32],
    ) -> Result<Table<'a>, ChartFault>
        ensures { MatchResult result (λ t. Allowed states letters × (states * letters ≤ length rows.now) × (table_of t ≡ table states letters starts marks rows.now)) (TableRefused states letters (length rows.now)) }
    {
        let size = Size::new(states, letters)?;
        if rows.len() < states as usize * letters as usize {
            return Err(ChartFault::FewRows);
        }
        Ok(Table {
            size,
            starts,
            marks,
            rows,
        })
    }

    // Is q a state, and a member of the set?
    fn has(&self, set: u32, q: u8) -> bool
        ensures { result ≡ nat_lt q self.now.size.states && bit set q }
    {
        q < self.size.states && contains(set, q as u64)
    }

    // The row of state p and letter i; past the rows no state is stepped to.
    fn row(&self, p: u8, i: u8) -> u32
        ensures { result ≡ slice_index self.now.rows.now (p * self.now.size.letters + i) }
    {
        let at = p as usize * self.size.letters as usize + i as usize;
        self.rows.get(at).copied().unwrap_or(0)
    }
}
