// Work tables, and what is said of a chart and a word.
use chart::Chart;
use member::{Lasso, MemberFault, empty, member};
use records::{Record, SearchFault};

// A work table of so many records.
pub(crate) fn blanks<const N: usize>() -> [Record; N] {
    [Record::default(); N]
}

// What `empty` says with records enough for every chart.
pub(crate) fn is_empty<C: Chart>(chart: &C) -> Result<bool, SearchFault> {
    empty(chart, &mut blanks::<32>())
}

// What `member` says of the word of these letters with this stem: not handed a word, so that a test's words are a line each.
pub(crate) fn told<C: Chart>(
    chart: &C,
    letters: &[u8],
    stem: usize,
    work: &mut [Record],
) -> Result<bool, MemberFault> {
    let word = Lasso {
        elements: letters,
        stem,
    };
    member(chart, word, work)
}

// What it says with 256 records.
pub(crate) fn takes<C: Chart>(chart: &C, letters: &[u8], stem: usize) -> Result<bool, MemberFault> {
    told(chart, letters, stem, &mut blanks::<256>())
}
