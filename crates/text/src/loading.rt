// Loading a chart: the text is read whole before the first row changes.
ghost use Rattle.std.specs.Prelude.{◌≡◌, ◌*◌, MatchResult};
ghost use Rattle.text.specs.Documents.{Document, some_tells};
ghost use Rattle.text.specs.Loads.{Loads};
ghost use Rattle.text.specs.Reading.{Surveyed, Told, verdict, fine};
ghost use Rattle.text.specs.Rows.{Added};

use crate::cursors::Cursor;
use crate::filling::Rows;
use fault::{ChartFault, TextFault};

// A chart's numbers. Its rows are in the caller's slice and are no part of it, so that the caller may go on with them.
#[derive(Clone, Copy, PartialEq, Eq, Debug)]
pub struct Loaded {
    pub states: u8,
    pub letters: u8,
    // sets of states
    pub starts: u32,
    pub marks: u32,
}

impl Loaded {
    // A row for each state and letter.
    pub(crate) fn row_count(self) -> usize
        ensures { result ≡ self.states * self.letters }
    {
        self.states as usize * self.letters as usize
    }
}

// Reads the whole text, and alters nothing.
fn survey(text: &[u8]) -> Result<Loaded, TextFault>
    ensures { MatchResult result (Surveyed text.now) (Told (verdict text.now)) }
{
    let mut cursor = Cursor::new(text);
    while cursor.advance()?.is_some() {}
    Ok(cursor.place.chart)
}

// Reads the text again, in which no line is wrong, and adds its steps.
fn fill(text: &[u8], rows: &mut Rows<'_>)
    requires { Surveyed text.now rows.old.chart }
    ensures same_reference { rows.new.cells.ghost_name ≡ rows.old.cells.ghost_name }
    ensures added { (d : Document) → verdict text.now ≡ fine d → Added rows.old.chart rows.old.cells.now rows.new.cells.now (some_tells rows.old.chart.letters d.steps) }
{
    let mut cursor = Cursor::new(text);
    while let Ok(Some(entry)) = cursor.advance() {
        rows.add_entry(entry);
    }
}

// Fills the rows with the chart that the text tells, or refuses: by 1 or 2 at the first wrong line, else by 3
// where the rows are fewer than states times letters. A refusal alters no row.
pub fn load(text: &[u8], rows: &mut [u32]) -> Result<Loaded, ChartFault>
    ensures { Loads text.now rows.old rows.new result }
{
    let chart = survey(text)?;
    if rows.len() < chart.row_count() {
        return Err(ChartFault::FewRows);
    }
    let mut rows = Rows { chart, cells: rows };
    rows.clear();
    fill(text, &mut rows);
    Ok(chart)
}
