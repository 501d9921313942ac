// Charts, maps, nodes and records that tests share. They stand in a crate of their own since they are proved too.
#![tactic(auto)]

mod bit_graphs;
mod charts;
mod ends;
mod nodes;

pub use bit_graphs::BitGraph;
pub use charts::{Pair, by_letters, every_second, looping, marked, one_of_each, still, unmarked};
pub use ends::Ends;
pub use nodes::{Node, USED, records};
