//! The nodes of a network as actors: what an end system, a switch and a line do with each message, and how that is undone.
#![tactic(auto)]

mod change;
mod copies;
mod end_system;
mod equipment;
mod finding;
mod line;
mod node;
mod opening;
mod outputs;
mod ports;
mod receiving;
mod reception;
mod source;
mod switch;
mod transit;
mod vl_end;

pub use change::Change;
pub use node::{Node, NodeRecord};
