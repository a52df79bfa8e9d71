//! What a turn of a group does, and a section of the exchange: in its turn a group handles messages (`work_ahead`); in a section it posts what it
//! did and takes its letters (`meet_at`).
#![tactic(auto)]

mod letters;
mod network_run;
mod run_fault;
mod section;
mod shared;
mod working;

pub use letters::least_ns;
pub use network_run::{NetworkGroup, OfGroups};
pub use network_runs::NetworkRun;
pub use run_fault::RunFault;
pub use section::meet_at;
pub use shared::{Shared, most_steps};
pub use working::work_ahead;
