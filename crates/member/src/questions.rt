// Does a chart take a word, or any word at all?
ghost use Rattle.std.specs.Prelude.{◌≡◌, ◌≤◌, length, is_some, IsOk, MatchResult};
ghost use Rattle.member.specs.Maps.{chart_graph};
ghost use Rattle.member.specs.Questions.{Empties, Members, MemberRefused};
ghost use Rattle.search.specs.Surveys.{Refused};

use crate::charts::ChartMap;
use crate::faults::MemberFault;
use crate::words::WordMap;
use chart::Chart;
use lasso::{NO_WORD, Word};
use records::{Record, SearchFault, check_table};
use search::{Findings, survey};

// Does a reachable marked node lie on a cycle?
fn has_cycle(found: Findings) -> bool
    ensures { result ≡ is_some found.witness }
{
    found.witness.is_some()
}

// Does the chart take no word? Decides the emptiness of a Büchi automaton by a search of its states. `work` is free then.
//
// Refused by 7 where `work` has no record or more than 65,536, which leaves it as it was; then by 13 where more states can be reached than
// it has records, which leaves it free: so a record for each state is enough.
pub fn empty<C: Chart>(chart: &C, work: &mut [Record]) -> Result<bool, SearchFault>
    ensures told { MatchResult result (Empties (C.Chart.meaning chart.now) (length work.old)) (Refused (chart_graph (C.Chart.meaning chart.now)) work.old work.new) }
    ensures enough { (C.Chart.meaning chart.now).states ≤ length work.old → length work.old ≤ 65536 → IsOk result }
{
    let map = ChartMap::new(chart);
    let found = survey(&map, NO_WORD, work)?;
    Ok(!has_cycle(found))
}

// Does the chart take the word, whose letters from the stem's end on repeat for ever? Decides membership by a search of the chart along
// the word. `work` is free then.
//
// Refused by 7 where `work` has no record or more than 65,536, then by 8 where the word has no letter or more than 131,072, its loop place
// is not below its length, or a letter is none of the chart's, which all leave `work` as it was; then by 13 where more nodes, places of the
// word with states, can be reached than it has records, which leaves it free.
pub fn member<C: Chart>(chart: &C, word: Word<'_>, work: &mut [Record]) -> Result<bool, MemberFault>
    ensures { MatchResult result (Members (C.Chart.meaning chart.now) word.entry.elements.now word.entry.stem (length work.old)) (MemberRefused (C.Chart.meaning chart.now) word.entry.elements.now word.entry.stem work.old work.new) }
{
    check_table(work)?;
    word.check_letters(chart.letters())?;
    let map = WordMap::new(chart);
    let found = survey(&map, word, work)?;
    Ok(has_cycle(found))
}
