//! Actors for the tests of generic crates: one adds up the moments of its messages, the other also passes the messages on.
#![tactic(auto)]

mod passing;
mod passing_on;
mod summing;
#[cfg(test)]
mod tests;

pub use passing::{PassRecord, Passing};
pub use summing::{SumRecord, Summing};
