//! Fossil collection: the events of a process that are earlier than global virtual time (GVT) can no longer be undone, and are committed
//! (Jefferson, "Virtual Time", ACM TOPLAS 7(3), 1985).
#![tactic(auto)]

mod collection;
mod rows;

pub use collection::{commit, is_early};
pub use rows::{let_rows_go, rows_between};
