//! The letters in transit between groups of processes, with a box for each group; the least of their times and of all floors; and the
//! moments up to which a group works.
#![tactic(auto)]

mod boxes;
mod carrying;
mod least;
mod reach;

pub use boxes::Boxes;
pub use least::horizon;
pub use reach::Reach;
