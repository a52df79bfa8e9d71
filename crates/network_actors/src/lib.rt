//! The actors of a network: its nodes and lines in their opening states, which meet the laws of a simulation.
#![tactic(auto)]

mod networks;
mod opening;

pub use networks::{layout_law, network_law};
pub use opening::nodes_of;
