//! The trace of a run, as far as it is written.
//! The contracts here state which fault comes first; that of the run does not, since a channel states nothing of what it was given.
ghost use Rattle.std.specs.Prelude.{◌≡◌, ◌≢◌, true, false, Some, Err, OnOk, OnErr, IfErr, IfSome};
ghost use Rattle.std.specs.Io.KnownBytes.{append_known};
ghost use Rattle.std.proofs.Props.{props};
ghost use Rattle.trace_segments.specs.declared.fault.OutFault.TheVariants.{Device};
ghost use Rattle.trace_segments.specs.declared.trace_fault.TraceFault.{TraceFault};
ghost use Rattle.trace_segments.specs.declared.trace_fault.TraceFault.TheVariants.{Out};
ghost use Rattle.trace_segments.specs.Words.{next_text};
ghost use Rattle.trace_writer.specs.WrittenTrace.{batch_fault};
ghost use Rattle.run_rows.specs.Traces.{HasLawfulRows, IsTraceOfRun};
ghost use Rattle.run_rows.specs.Written.{outcome_of, IsPlaceFault, IsFaultOfTrace, IsWritten};

use crate::lawful_rows::rows_law;
use crate::run_batch::RunBatch;
use crate::trace_run::TraceRun;
use network::Network;
use network_runs::NetworkRun;
use std::alloc::Global;
use std::marker::PhantomData;
use trace_tables::{OutFault, SegmentFault, Sink, TraceFault, TraceWriter, batches_in_order_law};

/// The trace of a run, as far as it is written, and the first fault of a batch. By its type the sink took a beginning of the text that the rows
/// of the one-thread run have.
#[derive(Drop)]
pub struct Writing<'a, J: NetworkRun, K: TraceRun, S: Sink> {
    writer: TraceWriter<'a, S>,
    outcome: Result<(), TraceFault>,
    of: PhantomData<(J, K)>,
    ghost of_run: { ∥ IsTraceOfRun J.plan K.taken K.failures writer ∥₁ },
    ghost lawful: { ∥ HasLawfulRows J.plan ∥₁ },
    ghost broken: { outcome ≡ Err (Out Device) → writer.broken ≡ true },
    ghost known: { IfErr outcome IsFaultOfTrace } by { Prim.hlevel props },
}

impl<'a, J: NetworkRun, K: TraceRun, S: Sink> Writing<'a, J, K, S> {
    /// Makes a writing of which no batch came yet.
    pub fn new(alloc: Global, network: &'a Network, sink: S) -> Self
        requires network { network.now ≡ J.plan }
        requires taken { S.taken sink ≡ K.taken }
        requires failures { S.failures sink ≡ K.failures }
    {
        rows_law(network);
        Writing {
            writer: TraceWriter::new(alloc, network, sink),
            outcome: Ok(()),
            of: PhantomData,
        }
    }

    /// Writes the lines of a batch of the run, as `TraceWriter::take` does. If it is refused, that is the outcome, and later batches are
    /// dropped.
    ///
    /// - `first`: after a fault nothing changes.
    /// - `refused`, `written`: as long as no fault came, a batch is written, or its fault is kept.
    pub fn take(&mut self, batch: RunBatch<J>)
        ensures first { OnErr self.old.outcome ((self.new.outcome ≡ self.old.outcome) × (self.new.writer ≡ self.old.writer)) }
        ensures refused { OnOk self.old.outcome ((fault : TraceFault) → batch_fault self.old.writer batch.batch ≡ Some fault → self.new.outcome ≡ Err fault) }
        ensures written { OnOk self.old.outcome (OnOk self.new.outcome (self.new.writer ≡ record self.old.writer {
          taken = append_known self.old.writer.taken (next_text self.old.writer.plan self.old.writer.begun batch.batch.rows);
          begun = true;
          end = batch.batch.to;
        })) }
    {
        batches_in_order_law();
        if self.outcome.is_ok() {
            let RunBatch { batch, .. } = batch;
            self.outcome = self.writer.take(batch);
        }
    }

    /// Ends the trace, and returns the sink. The outcome is that of `TraceWriter::finish` if a write failed; otherwise the first fault of a
    /// batch; if there was none, that of a segment; and if there was none either, that of `TraceWriter::finish` again.
    pub fn finish(self, gathering: Option<SegmentFault>) -> (Result<(), TraceFault>, S)
        requires { IfSome gathering IsPlaceFault }
        ensures { IsWritten J.plan K.taken K.failures result.0 (S.taken result.1) (S.failures result.1) }
    {
        batches_in_order_law();
        let Writing {
            writer,
            outcome,
            ..
        } = self;
        let (end, sink) = writer.finish();
        (outcome_of(outcome, gathering, end), sink)
    }
}

/// Returns the outcome of writing a trace: a write that failed is reported in any case; otherwise the fault of a batch; if there is none,
/// that of a segment; and if there is none either, the outcome of the end.
fn outcome_of(
    batches: Result<(), TraceFault>,
    gathering: Option<SegmentFault>,
    end: Result<(), TraceFault>,
) -> Result<(), TraceFault>
    ensures device { end ≡ Err (Out Device) → result ≡ Err (Out Device) }
    ensures other { end ≢ Err (Out Device) → result ≡ outcome_of batches gathering end }
{
    match (batches, gathering, end) {
        (_, _, Err(TraceFault::Out(OutFault::Device))) => Err(TraceFault::Out(OutFault::Device)),
        (Err(fault), _, _) => Err(fault),
        (Ok(()), Some(fault), _) => Err(TraceFault::Segment(fault)),
        (Ok(()), None, end) => end,
    }
}
