// The ranked graph of a duty and a rule as a map.
#![tactic(auto)]

mod choices;
mod digits;
mod faults;
mod instances;
mod making;
mod maps;
mod nodes;
mod offers;
mod questions;
mod sets;
mod snapshots;

pub use faults::InstanceFault;
pub use instances::Instance;
pub use maps::RankedMap;
