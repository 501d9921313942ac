// One search for every map. It collects the reachable nodes in a table that the caller lends, by Tarjan's strongly
// connected components: the stack grows from the table's front, finished components from its back.
#![tactic(auto)]

mod explores;
mod links;
mod scans;
mod searches;
mod surveys;
mod tables;
mod weights;

pub use surveys::{Findings, survey};
