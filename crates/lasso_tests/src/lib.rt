// Examples of lassos, with answers worked out by hand. They stand in a crate of their own since tests are proved too.
#![tactic(auto)]

#[cfg(test)]
mod limits;
#[cfg(test)]
mod positions;
