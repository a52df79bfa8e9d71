//! What a network provides for the exchange of single processes: its opening, and the segments of its trace that a process gives.
//! `worker_pool` re-exports these names.
#![tactic(auto)]

mod network_run;
mod opening;
mod segments;

pub use network_run::Of;
pub use opening::open_network;
pub use segments::next_segment;
