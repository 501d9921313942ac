// What the programs say of two chart texts.
#![tactic(auto)]

mod counterexamples;
mod deciding;
mod letters;
mod listings;
mod read_charts;
mod refusals;
mod refuting;

pub use counterexamples::Counterexample;
pub use deciding::{ROOM, Report, SLIP, decide_texts};
pub use letters::Letters;
pub use listings::{Listing, Summaries, Summary, list_texts};
pub use read_charts::LIMIT;
pub use refusals::{Refusal, Side};
pub use refuting::{CounterexampleReport, Told, counterexample_of_texts};
pub use verdict::Record;
