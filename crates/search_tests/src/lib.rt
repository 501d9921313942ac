// Examples of searches and of what they ask of maps, with answers worked out by hand. They stand in a crate of their own since
// tests are proved too.
#![tactic(auto)]

#[cfg(test)]
mod expected;
#[cfg(test)]
mod lassos;
#[cfg(test)]
mod limits;
#[cfg(test)]
mod rising;
#[cfg(test)]
mod surveys;
