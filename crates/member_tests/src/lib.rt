// Examples of words that charts take, with answers worked out by hand. They stand in a crate of their own since tests are
// proved too.
#![tactic(auto)]

#[cfg(test)]
mod questions;
#[cfg(test)]
mod refusals;
#[cfg(test)]
mod takings;
