//! A run of a network by workers: threads that give turns to groups of processes, which share one locked exchange.
#![tactic(auto)]

mod actual_pace;
mod batches;
mod desk;
mod ending;
mod group_opening;
mod group_segments;
mod grouping;
mod leaving;
mod pace;
mod results;
mod running;
mod single_processes;
mod speed;
mod start;
mod summary;
mod tasks;
mod tracing;
mod workers;

pub use actual_pace::ActualPace;
pub use group_choice::group_number;
pub use journal::{Gate, PoolFault};
pub use network_runs::NetworkRun;
pub use pace::Pace;
pub use run_rows::TraceRun;
pub use running::{Outcome, run};
pub use single_processes::{
    ActorRun, Exchange, Held, Mark, Of, Pairs, collect, next_segment, open_network, post, publish,
    work,
};
pub use summary::{Summary, run_summary};
pub use tracing::{Traced, run_traced};
