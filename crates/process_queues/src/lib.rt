//! One process of a Time Warp run: its letters, its events with their records, and what it does alone. Late letters and antimessages make
//! it roll back (Jefferson, "Virtual Time", ACM TOPLAS 7(3), 1985), by undo records instead of saved states.
#![tactic(auto)]

mod arriving;
mod committing;
mod fault;
mod late;
mod laws;
mod past;
mod posting;
mod process;
mod rollback;
mod running;

pub use fault::ProcFault;
pub use laws::sending_law;
pub use process::Process;
