//! Counts and writes the rows of a network's run while it goes on. By its type, a value here has the rows that the one-thread run of the
//! network has.
#![tactic(auto)]

mod counted;
mod lawful_rows;
mod row_tables;
mod run_batch;
mod trace_run;
mod writing;

pub use counted::{Counted, moment_of};
pub use lawful_rows::rows_law;
pub use row_tables::RowTables;
pub use run_batch::RunBatch;
pub use trace_run::TraceRun;
pub use writing::Writing;
