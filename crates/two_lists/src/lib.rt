//! Waiting messages in two lists: earlier ones are sorted, and later ones are in no order.
#![tactic(auto)]

mod bands;
mod lists;
mod order;

pub use lists::{TwoLists, take_out};
pub use order::sort;
