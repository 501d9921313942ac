// Examples of ranked graphs as maps, with answers worked out by hand or by tests/ranked_graph.py. They stand in a crate of
// their own since tests are proved too.
#![tactic(auto)]

#[cfg(test)]
mod expected;
#[cfg(test)]
mod kinds;
#[cfg(test)]
mod limits;
#[cfg(test)]
mod node_numbers;
#[cfg(test)]
mod wholes;
