//! The desk of a trace, which gathers the segments of a run, and sends its batches to the writer's thread.
ghost use Rattle.std.specs.Prelude.{◌≡◌, ◌≢◌, ◌<◌, ◌⊎◌, ℕ, None, Some, Ok, Err, IsOk, OnOk, IfOk, IfErr, IfSome, IfNone, OnErr, length};
ghost use Rattle.vlink.specs.declared.time.TheConstants.{GREATEST_NS};
ghost use Rattle.std.proofs.Props.{props};
ghost use Rattle.journal.specs.declared.fault.PoolFault.TheVariants as pool;
ghost use Rattle.trace_segments.specs.declared.segment_fault.SegmentFault.{SegmentFault};
ghost use Rattle.trace_segments.specs.declared.segment_fault.SegmentFault.TheVariants.{OutOfMemory};
ghost use Rattle.trace_segments.specs.Words.{no_segments, segment_fault, Waits, Gives, BatchRows};
ghost use Rattle.worker_pool.specs.Segments.{IsGroupSegmentOfRun};
ghost use Rattle.run_rows.specs.Traces.{HasLawfulRows};
ghost use Rattle.worker_pool.specs.Gatherings.{IsGatheringOfRun};
ghost use Rattle.run_rows.specs.Written.{IsPlaceFault};
ghost use Rattle.worker_pool.specs.Gatherings.{first_of, told_of};
ghost use Rattle.group_end.specs.Together.{OnlyRowsLeft};

use crate::group_segments::next_group_segment;
use crate::start::StartOf;
use crossbeam_channel::{SendError, Sender};
use group_turns::{NetworkGroup, RunFault};
use journal::PoolFault;
use network_runs::NetworkRun;
use run_rows::{RunBatch, rows_law};
use std::alloc::{AllocError, Global};
use std::sync::{Mutex, Wait};
use trace_tables::{Gather, Segment, SegmentFault, batches_in_order_law, segments_of_rows_law};
use vlink::Time;

/// The most segments that a group gives: a trace has at most this many intervals.
const MOST_SEGMENTS: u64 = 1024;

/// The contents of the lock of the trace: the segments that wait for those of other groups, the end of the channel to the writer's thread,
/// and the first fault of a segment's place. By its type the segments have the rows that the one-thread run of the network has.
#[derive(Drop)]
pub(crate) struct Desk<J: NetworkRun> {
    gather: Gather,
    batches: Sender<RunBatch<J>>,
    pub fault: Option<SegmentFault>,
    ghost of_run: { ∥ IsGatheringOfRun J.plan J.owners (length J.names) gather ∥₁ },
    ghost lawful: { ∥ HasLawfulRows J.plan ∥₁ },
    pub ghost known: { IfSome fault IsPlaceFault } by { Prim.hlevel props },
}

impl<J: NetworkRun> Desk<J> {
    /// Makes a desk without segments. Only memory can be refused.
    fn new(
        alloc: Global,
        start: &StartOf<'_, J>,
        batches: Sender<RunBatch<J>>,
    ) -> Result<Self, AllocError> {
        let network = start.network;
        rows_law(network);
        segments_of_rows_law();
        let gather = Gather::new(alloc, 0, start.grouping.groups, network.until())?;
        Ok(Desk {
            gather,
            batches,
            fault: None,
        })
    }

    /// Takes a segment. If it was the last one of its interval, sends the batch. Lack of memory for the segment ends the run; of other
    /// faults the first is kept, and the run goes on.
    fn take<T: Wait>(&mut self, rt: &T, segment: Segment) -> Result<(), PoolFault>
        requires run { segment.run ≡ 0 }
        requires group { segment.process < length J.names }
        requires of_run { (k : ℕ) × IsGroupSegmentOfRun J.plan J.owners segment.process k segment }
        ensures taken { segment_fault self.old.gather segment ≡ None → OnOk result
            (Waits self.old.gather segment self.new.gather ⊎ ((batch : BatchRows) × Gives self.old.gather segment batch self.new.gather)) }
        ensures refused { (fault : SegmentFault) → segment_fault self.old.gather segment ≡ Some fault → IsOk result × (self.new.fault ≡ first_of self.old.fault fault) }
        ensures kept { segment_fault self.old.gather segment ≡ None → self.new.fault ≡ self.old.fault }
        ensures memory { IfErr result (λ fault. fault ≡ pool.OutOfMemory) }
    {
        match self.add_segment(segment) {
            Ok(None) => Ok(()),
            Ok(Some(batch)) => self.send(rt, batch),
            Err(SegmentFault::OutOfMemory) => Err(PoolFault::OutOfMemory),
            Err(fault) => {
                self.keep(fault);
                Ok(())
            }
        }
    }

    /// Takes the next segment of a group of the run. Once the segments of all groups for an interval have come, returns the batch of the
    /// interval. Its refusals are those of `Gather::take`, and change nothing.
    fn add_segment(&mut self, segment: Segment) -> Result<Option<RunBatch<J>>, SegmentFault>
        requires run { segment.run ≡ 0 }
        requires group { segment.process < length J.names }
        requires of_run { (k : ℕ) × IsGroupSegmentOfRun J.plan J.owners segment.process k segment }
        ensures refused { (fault : SegmentFault) → segment_fault self.old.gather segment ≡ Some fault → result ≡ Err fault }
        ensures place { IfErr result (λ fault. fault ≢ OutOfMemory → IsPlaceFault fault) }
        ensures memory { segment_fault self.old.gather segment ≡ None → IfErr result (λ fault. fault ≡ OutOfMemory) }
        ensures waits { IfOk result (λ given. IfNone given (Waits self.old.gather segment self.new.gather)) }
        ensures gives { IfOk result (λ given. IfSome given (λ batch. Gives self.old.gather segment batch.batch self.new.gather)) }
        ensures fault { self.new.fault ≡ self.old.fault }
    {
        segments_of_rows_law();
        batches_in_order_law();
        match self.gather.take(segment)? {
            Some(batch) => Ok(Some(RunBatch::new(batch))),
            None => Ok(None),
        }
    }

    /// Sends a batch to the writer's thread, which takes batches as long as the desk exists.
    fn send<T: Wait>(&self, rt: &T, batch: RunBatch<J>) -> Result<(), PoolFault>
        ensures memory { IfErr result (λ fault. fault ≡ pool.OutOfMemory) }
    {
        told_of(self.batches.send(rt, batch))
    }

    /// Keeps the fault, if it is the first.
    fn keep(&mut self, fault: SegmentFault)
        requires { IsPlaceFault fault }
        ensures first { self.new.fault ≡ first_of self.old.fault fault }
        ensures gather { self.new.gather ≡ self.old.gather }
    {
        if self.fault.is_none() {
            self.fault = Some(fault);
        }
    }
}

/// Returns the result of sending a batch. A closed channel is no lack of memory, and the batch is dropped.
fn told_of<B: Drop>(sent: Result<(), SendError<B>>) -> Result<(), PoolFault>
    ensures { result ≡ told_of sent }
{
    match sent {
        Err(SendError::OutOfMemory(_)) => Err(PoolFault::OutOfMemory),
        Ok(()) | Err(SendError::Disconnected(_)) => Ok(()),
    }
}

/// The lock of the trace of a run, and the end time of the run.
#[derive(Drop)]
pub(crate) struct TraceLock<J: NetworkRun> {
    alloc: Global,
    until: Time,
    desk: Mutex<Desk<J>>,
    ghost ends: { until ≡ J.plan.until },
    ghost inside: { until < GREATEST_NS },
}

impl<J: NetworkRun> TraceLock<J> {
    /// Makes the lock without segments. Batches are sent to `to`. Only memory can be refused.
    pub(crate) fn new(
        alloc: Global,
        start: &StartOf<'_, J>,
        batches: Sender<RunBatch<J>>,
    ) -> Result<Self, AllocError> {
        let until = start.network.until();
        let desk = Mutex::new(Desk::new(alloc, start, batches)?);
        Ok(TraceLock { alloc, until, desk })
    }

    /// Puts the next segment that a group can give on the desk. Returns whether there was one.
    fn give_segment<T: Wait>(&self, rt: &T, group: &mut NetworkGroup<J>) -> Result<bool, PoolFault>
        ensures rows { OnlyRowsLeft group.old group.new }
        ensures memory { IfErr result (λ fault. fault ≡ pool.OutOfMemory) }
    {
        // The group is one of the run.
        let _number = group.number();
        let Some(segment) = next_group_segment(self.alloc, group, self.until)? else {
            return Ok(false);
        };
        self.desk.lock(rt).take(rt, segment)?;
        Ok(true)
    }

    /// Puts the segments that a group can give on the desk, one after another. The caller does not have the lock of the exchange.
    #[tactic(auto, using(crate::proofs::LeftRows::left_both))]
    pub(crate) fn give_segments<T: Wait>(
        &self,
        rt: &T,
        group: &mut NetworkGroup<J>,
    ) -> Result<(), RunFault<J>>
        ensures rows { OnlyRowsLeft group.old group.new }
        ensures memory { IfErr result (λ fault. fault ≡ pool.OutOfMemory) }
    {
        for _ in 0..MOST_SEGMENTS {
            match self.give_segment(rt, group) {
                Ok(true) => {}
                Ok(false) => return Ok(()),
                Err(fault) => return Err(RunFault::other(fault)),
            }
        }
        Ok(())
    }

    /// Returns the first fault of a segment that is not lack of memory. No batch is sent from here on.
    pub(crate) fn into_fault(self) -> Option<SegmentFault>
        ensures { IfSome result IsPlaceFault }
    {
        self.desk.into_inner().fault
    }
}
