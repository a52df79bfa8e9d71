//! Global virtual time (GVT): the moment below which no event is undone any more (Jefferson, "Virtual Time", ACM TOPLAS 7(3), 1985). It is
//! computed from the letters in the mail and from a floor for each process; nothing that the process has in hand is earlier than its floor.
#![tactic(auto)]

mod floors;
mod least;

pub use floors::Floors;
pub use least::{gvt_law, horizon};
