//! Integrity checking at a receiver: on each network, it refuses a frame whose number does not follow the previous one.
#![tactic(auto)]

mod checking;

pub use checking::{Checked, Integrity};
