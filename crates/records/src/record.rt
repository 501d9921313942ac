// What a table has at each place.

// A node of a map, a letter, and a measure.
#[derive(Clone, Copy, PartialEq, Eq, Default, Debug)]
pub struct Record {
    pub node: u64,
    pub letter: u8,
    pub measure: u32,
}
