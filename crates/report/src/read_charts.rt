// A chart's text read, with the rows that it fills.
ghost use Rattle.std.specs.Prelude.{◌≡◌, ◌*◌, ◌<◌, ◌≤◌, length, MatchResult};
ghost use Rattle.chart.specs.Automata.{Allowed};
ghost use Rattle.fault.specs.declared.TextFault.TheVariants.{Form};

use chart::Table;
use fault::{ChartFault, TextFault};
use text::{Loaded, load};

// The most bytes of a text.
pub const LIMIT: usize = 8192;

// The rows of the largest chart, which has 32 states and 16 letters. They are lent to the loader, which takes no heap.
const ROWS: usize = 512;

#[derive(Drop)]
pub(crate) struct ReadChart {
    loaded: Loaded,
    rows: [u32; ROWS],
    ghost allowed: { Allowed loaded.states loaded.letters },
    ghost enough: { loaded.states * loaded.letters ≤ 512 },
}

// A longer text is refused as a whole, at line 0.
fn check_length(text: &[u8]) -> Result<(), TextFault>
    ensures { MatchResult result (λ _. length text.now ≤ 8192) (λ e. (8192 < length text.now) × (e ≡ Form 0)) }
{
    if text.len() > LIMIT {
        Err(TextFault::Form(0))
    } else {
        Ok(())
    }
}

impl ReadChart {
    ghost use Rattle.chart.specs.Meanings.{table_of};
    ghost use Rattle.report.specs.Readings.{FileRefused};
    ghost use Rattle.report.specs.ReadCharts.{Holds, chart_of};

    // Refused by the length first, then as `load` does.
    pub(crate) fn read(text: &[u8]) -> Result<ReadChart, ChartFault>
        ensures { MatchResult result (Holds text.now) (FileRefused text.now) }
    {
        check_length(text)?;
        let mut rows = [0u32; ROWS];
        let loaded = load(text, &mut rows)?;
        Ok(ReadChart { loaded, rows })
    }

    // The chart.
    pub(crate) fn table(&self) -> Table<'_>
        ensures { table_of result ≡ chart_of self.now }
    {
        let Loaded {
            states,
            letters,
            starts,
            marks,
        } = self.loaded;
        Table::new(states, letters, starts, marks, &self.rows).unwrap()
    }
}
