//! The tables of the one-thread run of a network, in which lines without outages run ahead.
#![tactic(auto)]

mod counted;
mod lines;
mod running;

pub use lines::{lines_ahead, lines_ahead_law};
pub use running::run_tables;
