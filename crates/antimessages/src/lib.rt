//! Messages and antimessages: the signed counts of a process, its outbox, and the mail of all processes.
#![tactic(auto)]

mod ends;
mod fault;
mod mail;
mod next;
mod occurrence;
mod occurrences;
mod outbox;
mod posting;
mod tally;

pub use ends::rewind;
pub use fault::OutOfMemory;
pub use mail::Mail;
pub use outbox::{Outbox, plus_letters};
pub use tally::{Change, Tally};
