//! Redundancy management at a receiver: it delivers the first of the two copies of a frame, and drops the other as a duplicate.
#![tactic(auto)]

mod delivery;

pub use delivery::{Delivery, GREATEST_SKEW_NS, Received, Redundancy};
