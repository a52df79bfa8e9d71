//! A batch of a run's trace.
ghost use Rattle.std.specs.Prelude.{◌≡◌};
ghost use Rattle.run_rows.specs.Traces.{IsBatchOfRun};

use network_runs::NetworkRun;
use std::marker::PhantomData;
use trace_tables::Batch;

/// The rows of all processes in one interval. By its type they are those that the one-thread run of the network has there.
#[derive(Drop)]
pub struct RunBatch<J: NetworkRun> {
    pub batch: Batch,
    of: PhantomData<J>,
    pub ghost of_run: { ∥ IsBatchOfRun J.plan batch ∥₁ },
}

impl<J: NetworkRun> RunBatch<J> {
    /// Makes a batch of the run.
    pub fn new(batch: Batch) -> Self
        requires { ∥ IsBatchOfRun J.plan batch ∥₁ }
        ensures { result.batch ≡ batch }
    {
        RunBatch {
            batch,
            of: PhantomData,
        }
    }
}
