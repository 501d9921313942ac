// Examples of the reports on two texts, with answers worked out by hand or by tests/compare_verdicts.py. They stand in a
// crate of their own since tests are proved too.
#![tactic(auto)]

#[cfg(test)]
mod counterexamples;
#[cfg(test)]
mod counts;
#[cfg(test)]
mod emptiness;
#[cfg(test)]
mod listings;
#[cfg(test)]
mod printed;
#[cfg(test)]
mod refusals;
