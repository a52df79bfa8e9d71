//! The one-thread run of a network: the first of all waiting messages is handled, until none waits.
#![tactic(auto)]

mod rows;
mod simulating;

pub use actor_run::{SimFault, Unwatched, Watch, run_actors};
pub use network_actors::{layout_law, network_law, nodes_of};
pub use rows::rows_by_process_law;
pub use simulating::{Finished, run};
