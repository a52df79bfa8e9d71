//! The text of a journal: the steps of a run, one a line.
#![tactic(auto)]

mod fault;
mod line;
mod line_counting;
mod line_writing;
mod number;
mod steps;

pub use fault::LinesFault;
pub use line_writing::{LONGEST_LINE, push_step};
pub use steps::read_steps;
