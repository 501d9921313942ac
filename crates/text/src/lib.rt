// Chart texts: a reader that accepts exactly the texts of charts, and a loader that fills the caller's rows.
#![tactic(auto)]

mod cursors;
mod entries;
mod filling;
mod lines;
mod loading;
mod places;
mod words;

pub use loading::{Loaded, load};
