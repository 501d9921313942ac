// The bench: a duty and a rule, and the slip that is to show whether the rule takes all that the duty takes.
#![tactic(auto)]

mod benches;
mod calls;
mod drafts;
mod examples;
mod faults;
mod judging;
mod states;
mod verdicts;

pub use benches::Bench;
pub use examples::examples_hold;
pub use faults::BenchFault;
pub use records::Record;
pub use slip::{Breach, BreakRule, KeepRule, Kind, Rule};
pub use states::{Form, State};
pub use verdicts::Verdict;
