//! The one-thread run of any actors: the first of all waiting messages is handled, until none waits.
#![tactic(auto)]

mod ahead;
mod beside;
mod fault;
mod recorder;
mod running;
mod waiting;
mod watch;

pub use ahead::handle_all_ahead;
pub use fault::SimFault;
pub use recorder::Recorder;
pub use running::{handle_all, run_actors};
pub use waiting::Waiting;
pub use watch::{Unwatched, Watch};
