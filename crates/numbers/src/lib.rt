// Sets of small numbers as the bits of a word, tests of numbers that several crates use, and facts on numbers that their proofs
// need: see specs/ and proofs/.
#![tactic(auto)]

mod sets;

pub use sets::{contains, least_member, with};
