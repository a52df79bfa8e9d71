//! Chooses the group of each process of a network, if several workers share the network. Processes with much traffic between them belong
//! together, and each group has about the same load.
#![tactic(auto)]

mod clusters;
mod dealing;
mod flows;
mod groups;
mod joining;
mod matrix;
mod moving;
mod node_flows;
mod packing;

pub use groups::{group_number, groups_asked, groups_of};
