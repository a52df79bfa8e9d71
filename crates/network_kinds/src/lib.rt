//! The kinds of the nodes of a network: end systems, and switches of network A or B.
#![tactic(auto)]

mod kinds;

pub use kinds::{is_end_system, is_switch_of};
