// Small charts.
use chart::{Table, Union};
use fault::ChartFault;

const LOOP: [u32; 1] = [0b1];

// One state that leads to itself by the one letter.
pub fn looping(start: bool, mark: bool) -> Result<Table<'static>, ChartFault> {
    Table::new(1, 1, start as u32, mark as u32, &LOOP)
}

// It is the start, and marked: the one word is taken.
pub fn marked() -> Result<Table<'static>, ChartFault> {
    looping(true, true)
}

// It is the start, and unmarked: no word is taken.
pub fn unmarked() -> Result<Table<'static>, ChartFault> {
    looping(true, false)
}

// So many states, at most 6, and one letter: the first is the start, none is marked, and no step leads from any.
pub fn still(states: u8) -> Result<Table<'static>, ChartFault> {
    Table::new(states, 1, 0b1, 0b0, &[0; 6])
}

// Two states in turn, of which the first is the start, and the second is marked.
pub fn every_second() -> Result<Table<'static>, ChartFault> {
    Table::new(2, 1, 0b01, 0b10, &[0b10, 0b01])
}

// Two states that are starts: letter a leads from 0 to 0, and b from 1 to 1. So a word that is taken has the one letter of a marked
// state.
pub fn by_letters(marks: u32) -> Result<Table<'static>, ChartFault> {
    Table::new(2, 2, 0b11, marks, &[0b01, 0b00, 0b00, 0b10])
}

pub type Pair = Union<Table<'static>, Table<'static>>;

// The same of a chart for each of the states, of which these are marked.
pub fn one_of_each(first: bool, second: bool) -> Result<Pair, ChartFault> {
    let a = Table::new(1, 2, 0b1, first as u32, &[0b1, 0b0])?;
    let b = Table::new(1, 2, 0b1, second as u32, &[0b0, 0b1])?;
    Union::new(a, b)
}
