// Which words a chart takes: whether it takes a given one, and whether it takes any. Both are searches of its maps.
#![tactic(auto)]

mod charts;
mod faults;
mod questions;
mod words;

pub use charts::ChartMap;
pub use faults::MemberFault;
pub use lasso::{Lasso, Word};
pub use questions::{empty, member};
pub use records::Record;
pub use words::WordMap;
