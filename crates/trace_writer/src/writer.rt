//! Writes a trace batch by batch.
ghost use Rattle.std.specs.Prelude.{◌≡◌, ◌≢◌, ◌+◌, [], true, false, None, Some, Ok, Err, IsOk, OnOk, IfErr, MatchResult};
ghost use Rattle.std.specs.Io.KnownBytes.{append_known};
ghost use Rattle.trace_segments.specs.declared.fault.OutFault.TheVariants.{Device};
ghost use Rattle.trace_segments.specs.declared.trace_fault.TraceFault.{TraceFault};
ghost use Rattle.trace_segments.specs.declared.trace_fault.TraceFault.TheVariants.{Out};
ghost use Rattle.trace_segments.specs.Words.{IsBeginning, next_text, trace_text};
ghost use Rattle.trace_writer.specs.WrittenTrace.{batch_fault, lacks_head, end_fault};

use network::Network;
use std::alloc::Global;
use std::marker::Model;
use trace_segments::{
    Batch, OutFault, SegmentFault, Sink, TraceFault, next_bytes, write_all, write_trace,
};
use vlink::{Row, Time};

/// The trace of a run of a network, as far as it is written.
///
/// Clauses see it as the network's plan, what the sink took and how many writes failed there, whether the first line is written, where the
/// last batch ended in ns (0 before the first), and whether the sink failed.
#[derive(Drop)]
pub struct TraceWriter<'a, S: Sink> {
    alloc: Global,
    network: &'a Network,
    sink: S,
    begun: bool,
    end: Time,
    broken: bool,
}

impl<'a, S: Sink> Model for TraceWriter<'a, S> {
    ghost use Rattle.trace_writer.specs.WrittenTrace.{WrittenTrace};

    ghost Value = { WrittenTrace };

    ghost view = { λ w. record {
      plan = w.network.now;
      taken = S.taken w.sink;
      failures = S.failures w.sink;
      begun = w.begun;
      end = w.end;
      broken = w.broken;
    } };
}

/// Returns the result of a write as a result of the trace.
fn of_trace(written: Result<(), OutFault>) -> Result<(), TraceFault>
    ensures { MatchResult written (λ _. IsOk result) (λ fault. result ≡ Err (Out fault)) }
{
    match written {
        Ok(()) => Ok(()),
        Err(fault) => Err(TraceFault::Out(fault)),
    }
}

impl<'a, S: Sink> TraceWriter<'a, S> {
    /// Makes a trace of which nothing is written yet.
    pub fn new(alloc: Global, network: &'a Network, sink: S) -> Self
        ensures { result ≡ record {
          plan = network.now;
          taken = S.taken sink;
          failures = S.failures sink;
          begun = false;
          end = 0;
          broken = false;
        } }
    {
        TraceWriter {
            alloc,
            network,
            sink,
            begun: false,
            end: Time::default(),
            broken: false,
        }
    }

    /// Returns why a batch is not written, if neither memory nor this write is the cause.
    fn fault_of(&self, batch: &Batch) -> Option<TraceFault>
        ensures { result ≡ batch_fault self.now batch.now }
    {
        if self.broken {
            return Some(TraceFault::Out(OutFault::Device));
        }
        let from = batch.from();
        if from.ns() < self.end.ns() {
            return Some(TraceFault::Segment(SegmentFault::Double));
        }
        if self.end.ns() < from.ns() {
            return Some(TraceFault::Segment(SegmentFault::Gap));
        }
        None
    }

    /// Writes the lines of a batch, which begins where the last one ended, and the first line of the trace before those of the first batch.
    ///
    /// The text is made whole before its first byte is written. Of the faults, only the last one changes anything:
    ///
    /// - `Out(Device)`, tried first: the sink failed in an earlier call.
    /// - `Segment(Double)`: the batch begins before the end of the last one. `Segment(Gap)`: it begins after that end. The first batch
    ///   begins at 0.
    /// - `Out(OutOfMemory)`, `Out(Layout)`: as in `write_trace`; nothing was written.
    /// - `Out(Device)`: the sink failed. What was written is a beginning of the text, and nothing more follows.
    pub fn take(&mut self, batch: Batch) -> Result<(), TraceFault>
        ensures refused { (fault : TraceFault) → batch_fault self.old batch ≡ Some fault → result ≡ Err fault }
        ensures unchanged { (fault : TraceFault) → batch_fault self.old batch ≡ Some fault → self.new ≡ self.old }
        ensures written { OnOk result (self.new ≡ record self.old {
          taken = append_known self.old.taken (next_text self.old.plan self.old.begun batch.rows);
          begun = true;
          end = batch.to;
        }) }
        ensures out { batch_fault self.old batch ≡ None → IfErr result (λ fault. (why : OutFault) × (fault ≡ Out why)) }
        ensures device { batch_fault self.old batch ≡ None → IfErr result (λ fault. fault ≡ Out Device →
            IsBeginning self.old.taken self.new.taken (next_text self.old.plan self.old.begun batch.rows)) }
        ensures broken { batch_fault self.old batch ≡ None → IfErr result (λ fault. fault ≡ Out Device →
            self.new ≡ record self.old { taken = self.new.taken; failures = self.old.failures + 1; broken = true }) }
        ensures kept { IfErr result (λ fault. fault ≢ Out Device → self.new ≡ self.old) }
    {
        if let Some(fault) = self.fault_of(&batch) {
            return Err(fault);
        }
        match self.write(batch.rows()) {
            Ok(()) => {
                self.end = batch.to();
                Ok(())
            }
            Err(fault) => Err(TraceFault::Out(fault)),
        }
    }

    /// Writes the lines of these rows, behind the first line of the trace unless that was written.
    fn write(&mut self, rows: &[Row]) -> Result<(), OutFault>
        ensures written { OnOk result (self.new ≡ record self.old {
          taken = append_known self.old.taken (next_text self.old.plan self.old.begun rows.now);
          begun = true;
        }) }
        ensures device { IfErr result (λ fault. fault ≡ Device →
            IsBeginning self.old.taken self.new.taken (next_text self.old.plan self.old.begun rows.now)) }
        ensures broken { IfErr result (λ fault. fault ≡ Device →
            self.new ≡ record self.old { taken = self.new.taken; failures = self.old.failures + 1; broken = true }) }
        ensures kept { IfErr result (λ fault. fault ≢ Device → self.new ≡ self.old) }
    {
        let bytes = next_bytes(self.alloc, self.network, self.begun, rows)?;
        match write_all(&mut self.sink, bytes.as_slice()) {
            Ok(()) => {
                self.begun = true;
                Ok(())
            }
            Err(_) => {
                self.broken = true;
                Err(OutFault::Device)
            }
        }
    }

    /// Ends the trace and returns the sink. A network without a process gives no batch; its first line is written here.
    ///
    /// - `Out(Device)`: the sink failed, in an earlier call or in this one, which then left a beginning of the first line.
    /// - `Segment(Gap)`: the last batch did not end at the moment after the end of the run, or no batch came.
    /// - `Out(OutOfMemory)`, `Out(Layout)`: the first line was still to be written; nothing was written.
    pub fn finish(self) -> (Result<(), TraceFault>, S)
        ensures refused { (fault : TraceFault) → end_fault self.entry ≡ Some fault → result.0 ≡ Err fault }
        ensures whole { end_fault self.entry ≡ None → lacks_head self.entry ≡ false → IsOk result.0 }
        ensures same { lacks_head self.entry ≡ false → S.taken result.1 ≡ self.entry.taken }
        ensures no_failure { lacks_head self.entry ≡ false → S.failures result.1 ≡ self.entry.failures }
        ensures written { lacks_head self.entry ≡ true →
            OnOk result.0 (S.taken result.1 ≡ append_known self.entry.taken (trace_text self.entry.plan [])) }
        ensures went_well { OnOk result.0 (S.failures result.1 ≡ self.entry.failures) }
        ensures out { lacks_head self.entry ≡ true → IfErr result.0 (λ fault. (why : OutFault) × (fault ≡ Out why)) }
        ensures device { lacks_head self.entry ≡ true → IfErr result.0 (λ fault. fault ≡ Out Device →
            IsBeginning self.entry.taken (S.taken result.1) (trace_text self.entry.plan [])) }
        ensures failed { lacks_head self.entry ≡ true → IfErr result.0 (λ fault. fault ≡ Out Device → S.failures result.1 ≡ self.entry.failures + 1) }
        ensures kept { IfErr result.0 (λ fault. fault ≢ Out Device → S.taken result.1 ≡ self.entry.taken) }
        ensures kept_failures { IfErr result.0 (λ fault. fault ≢ Out Device → S.failures result.1 ≡ self.entry.failures) }
    {
        let TraceWriter {
            alloc,
            network,
            mut sink,
            begun,
            end,
            broken,
        } = self;
        if broken {
            return (Err(TraceFault::Out(OutFault::Device)), sink);
        }
        if !begun && network.process_count() == 0 {
            let written = write_trace(alloc, network, &[], &mut sink);
            return (of_trace(written), sink);
        }
        if end.ns() != network.until().ns() + 1 {
            return (Err(TraceFault::Segment(SegmentFault::Gap)), sink);
        }
        (Ok(()), sink)
    }
}
