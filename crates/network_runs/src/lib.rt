//! A run of a network, known by its type, and the interval of its trace that begins at a moment.
#![tactic(auto)]

mod interval;
mod network_run;

pub use interval::interval_at;
pub use network_run::NetworkRun;
