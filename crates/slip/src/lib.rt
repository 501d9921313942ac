// Slips, which are certificates: records over a graph that show by themselves that it has a marked cycle, or that it has none.
#![tactic(auto)]

mod faults;
mod inspection;
mod kinds;
mod slips;

pub use faults::SlipFault;
pub use kinds::{Breach, BreakRule, KeepRule, Kind, Rule};
pub use records::Record;
pub use slips::{Slip, stems};
