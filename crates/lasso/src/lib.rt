// Lassos: words, runs and records that repeat for ever, by their positions; and what it is for a chart to take a word.
#![tactic(auto)]

mod agreement;
mod faults;
mod positions;
mod words;

pub use agreement::{acceptance_agrees, places_repeat, runs_return};
pub use faults::LassoFault;
pub use positions::Lasso;
pub use words::{NO_WORD, Word};
