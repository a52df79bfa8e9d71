//! What a group of processes keeps: the messages that wait, in message order; its letters, with a tray of those that have not arrived; its done
//! events and their rows; and the words that say what it did.
//!
//! Nothing here calls an actor: the calls of a group, which do steps of the laws of virtual time, are those of `group_hand`.
#![tactic(auto)]

mod block;
mod committing;
mod counting_again;
mod done_events;
mod handing;
mod letters;
mod newest;
mod passing;
mod queue;
mod rows;
mod trail;
mod tray;

pub use block::{Word, Words};
pub use done_events::{DoneEvents, Event};
pub use letters::Letters;
pub use rows::Rows;
pub use tray::Way;
