// Paths to a node of a graph, looked for breadth first in a table that the caller lends, and the lasso through a marked node that two
// of them make, written into a second table.
#![tactic(auto)]

mod lassos;
mod queues;

pub use lassos::{Extent, write_lasso};
