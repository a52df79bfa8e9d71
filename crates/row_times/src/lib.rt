//! Searches rows of committed events by their moments.
#![tactic(auto)]

mod rows;

pub use rows::{count_before, rows_in_time};
