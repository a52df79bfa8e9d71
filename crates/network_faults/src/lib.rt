//! Faults between rows: finds the first one, or makes the rows with numbers in place of names.
#![tactic(auto)]

mod compaction;
mod destinations;
mod double;
mod each;
mod links;
mod names;
mod no_link;
mod no_tree;
mod numbering;
mod packing;
mod streams;
mod too_many;
mod unknown;
mod unpacking;

pub use destinations::{destinations_of, rising_of};
pub use links::{Joined, count_link, no_counts};
pub use numbering::numbered_of;
