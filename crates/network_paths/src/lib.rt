//! The paths of a virtual link: the nodes that they pass, their hops and ends, and a check that they form a tree.
#![tactic(auto)]

mod paths;
mod trees;

pub use network_kinds::{is_end_system, is_switch_of};
pub use paths::{push_all, push_ends};
pub use trees::{Room, check_trees};
