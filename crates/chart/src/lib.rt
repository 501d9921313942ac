// Charts, which are nondeterministic Büchi automata, behind one interface of five questions, and the kinds that there are.
#![tactic(auto)]

mod fitting;
mod interface;
mod sizes;
mod tables;
mod unions;

pub use fitting::Fitted;
pub use interface::Chart;
pub use tables::Table;
pub use unions::Union;
