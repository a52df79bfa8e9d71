//! From the text of a network description to its rows. It checks each key alone, and reports the first fault of a text that has one.
#![tactic(auto)]

mod fault;
mod find_faults;
mod first_places;
mod key;
mod key_fault;
mod make_row;
mod paths;
mod read;
mod read_row;
mod read_value;
mod rows;
mod rule;
mod sequence;
mod table;
mod take;
mod unknown;
mod value;
mod value_type;

pub use fault::{DescFault, Place};
pub use key::{Key, Section};
pub use paths::{Path, Paths};
pub use read::read_rows;
pub use row_types::{
    Name, NodeKind, NodeRow, Policing, Priority, Rate, Stream, StreamRow, Timing, VirtualLink,
};
pub use rows::{LinkRow, OutageRow, Rows, VlRow};
pub use sequence::Sequence;
