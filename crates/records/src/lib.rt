// Records, which searches and slips are made of, and their tables.
#![tactic(auto)]

mod faults;
mod finding;
mod record;
mod sizes;
mod work_table;

pub use faults::SearchFault;
pub use record::Record;
pub use sizes::check_table;
pub use work_table::WorkTable;
