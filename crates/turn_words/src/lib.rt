//! What the workers of a run say: which group gets a turn next, and the least of the faults that they end with.
#![tactic(auto)]

mod hint;
mod outcomes;
mod refusal;

pub use hint::{Hint, TurnRun};
pub use outcomes::{add_outcome, least_fault};
pub use refusal::Refusal;
