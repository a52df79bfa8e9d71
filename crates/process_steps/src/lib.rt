//! What an arrival, a rollback and a commit do to the queues and the tally of a process, for any actor.
#![tactic(auto)]

mod committing;
mod event;
mod order;
mod restoring;
mod taking_back;
mod tray;

pub use committing::{counts_once, is_committable};
pub use event::Event;
pub use order::is_before;
pub use restoring::tally_again;
pub use taking_back::{take_back, take_newest};
pub use tray::{is_change, pop_front, tally_front};
