//! The types of a network's description that know no format of a text.
#![tactic(auto)]

mod name;
mod rows;

pub use name::Name;
pub use rows::{
    NodeKind, NodeRow, Policing, Priority, Rate, Stream, StreamRow, Timing, VirtualLink,
};
