// Examples of what a bench answers and leaves, and of verdicts. The answers were worked out by hand, or come from
// tests/ranked_graph.py and tests/compare_verdicts.py, which finds verdicts by the effects of words on the charts. They stand in
// a crate of their own since tests are proved too.
#![tactic(auto)]

#[cfg(test)]
mod audited;
#[cfg(test)]
mod confirmed;
#[cfg(test)]
mod decided;
#[cfg(test)]
mod examples;
#[cfg(test)]
mod kinds;
#[cfg(test)]
mod large;
#[cfg(test)]
mod made;
#[cfg(test)]
mod passed;
#[cfg(test)]
mod put;
#[cfg(test)]
mod refusals;
#[cfg(test)]
mod rules;
#[cfg(test)]
mod small;
#[cfg(test)]
mod wide;
