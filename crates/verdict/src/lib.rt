// Verdicts with their certificates, by way of a bench: a slip is judged or put, inspected, and released.
#![tactic(auto)]

mod auditing;
mod certifying;

pub use auditing::{Audited, audit};
pub use bench::{Breach, Form, Kind, Record, Verdict};
pub use certifying::{Certified, confirm, decide};
