//! The numbers of worst-case bounds, in 128 bits: mixtures of two bounds on what comes to a port, and the time that a high frame takes.
#![tactic(auto)]

mod mixing;
mod sending;

pub use mixing::{WHOLE, mixed};
pub use sending::{UNITS, first_ns};
