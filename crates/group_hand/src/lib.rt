//! A hand is the part of a network that one worker holds: a group of processes. It has one queue of messages for all of them, whose events
//! it does in message order; one list of done events, by which it undoes those that were done too early; and the letters that they sent to
//! others. So only letters between groups pass from worker to worker.
//!
//! Each call does steps of the laws of virtual time, which join the block as words. What a group keeps is in `group_queues`.
#![tactic(auto)]

mod delivering;
mod emptying_tray;
mod fault;
mod front;
mod hand;
mod handing;
mod in_order;
mod laws;
mod members;
mod oldest;
mod out_of_order;
mod rollback;
mod run;
mod settling;

pub use fault::HandFault;
pub use group_queues::{Word, Words};
pub use hand::Hand;
pub use in_order::InOrder;
pub use laws::hand_law;
