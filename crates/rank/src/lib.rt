// The ranked graph of a duty and a rule, and why it decides whether the rule takes every repeating word that the duty
// takes. It has no code: each theorem is the contract of a function that does nothing, so the check asks for its proof.
#![tactic(auto)]

mod containment;
mod numbering;

pub use containment::{
    cycles_decide, lassos_tell, measures_tell, ranked_complements, taking_is_decided,
};
pub use numbering::numbers_correspond;
