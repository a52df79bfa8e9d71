//! What a network gives the laws of ports in a run: its ports and lines, its virtual links at its nodes, and its offers. No product code.
#![tactic(auto)]

mod links;
mod offers;
mod ports;

pub use links::links_law;
pub use offers::offered_law;
pub use ports::ports_law;
