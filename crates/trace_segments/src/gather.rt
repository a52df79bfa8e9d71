//! Stores segments of a trace until those of all processes have come.
ghost use Rattle.std.specs.Prelude.{◌≡◌, ◌<◌, None, Some, Ok, Err, IfOk, IfErr, IfSome, IfNone, OnErr};
ghost use Rattle.trace_segments.specs.declared.segment_fault.SegmentFault.{SegmentFault};
ghost use Rattle.trace_segments.specs.declared.segment_fault.SegmentFault.TheVariants.{OutOfMemory};
ghost use Rattle.trace_segments.specs.Gathering.{no_segments, segment_fault, place_fault, Waits, Gives};

use crate::batch::Batch;
use crate::interval::cut;
use crate::queue::SegmentQueue;
use crate::segment::Segment;
use crate::segment_fault::SegmentFault;
use crate::waiting::{none_waiting, put_segment};
use std::alloc::{AllocError, Global};
use std::marker::Model;
use vlink::{GREATEST_NS, Time};

/// The segments of a run that were taken and wait until those of the other processes have come. Processes are numbered from 0.
///
/// Clauses see it as the run and its end, how many batches were returned, and for each process the rows of its segments of the following
/// intervals, without a gap.
#[derive(Drop)]
pub struct Gather {
    run: u64,
    until: Time,
    given: u64,
    waiting: Vec<SegmentQueue>,
}

impl Model for Gather {
    ghost use Rattle.std.specs.Prelude.{◌<◌};
    ghost use Rattle.vlink.specs.declared.time.TheConstants.{GREATEST_NS};
    ghost use Rattle.trace_segments.specs.Gathering.{Gathering, AreFew};

    ghost Value = { Gathering };

    ghost view = { λ g. record { run = g.run; until = g.until; given = g.given; waiting = g.waiting.items } };

    ghost invariant = { λ g. (g.until < GREATEST_NS) × AreFew g.given g.waiting.items };
}

/// Returns why a segment from one moment to another is not taken, if the last segment of its process ended at `end` and the next cut is at
/// `next`.
fn place_fault(until: Time, end: Time, next: Time, from: Time, to: Time) -> Option<SegmentFault>
    ensures { result ≡ place_fault until end next from to }
{
    if from.ns() < end.ns() {
        return Some(SegmentFault::Double);
    }
    if end.ns() < from.ns() || to.ns() != next.ns() || until.ns() < end.ns() {
        return Some(SegmentFault::Gap);
    }
    None
}

impl Gather {
    /// Makes a gathering without segments, for this number of processes of this run until `until`. It fails only if memory is refused.
    pub fn new(alloc: Global, run: u64, processes: u16, until: Time) -> Result<Gather, AllocError>
        requires { until < GREATEST_NS }
        ensures { IfOk result (λ gather. gather ≡ no_segments run processes until) }
    {
        Ok(Gather {
            run,
            until,
            given: 0,
            waiting: none_waiting(alloc, processes)?,
        })
    }

    /// Returns why a segment is not taken, if memory is not the cause.
    fn fault_of(&self, segment: &Segment) -> Option<SegmentFault>
        ensures { result ≡ segment_fault self.now segment.now }
    {
        let process = usize::from(segment.process());
        if segment.run() != self.run || process >= self.waiting.len() {
            return Some(SegmentFault::Stranger);
        }
        let taken = self.given + self.waiting[process].len() as u64;
        let end = cut(self.until, taken);
        let next = cut(self.until, taken + 1);
        place_fault(self.until, end, next, segment.from(), segment.to())
    }

    /// Takes the next segment of a process. Once the segments of all processes for an interval have come, it returns the batch of the
    /// interval: their rows in the order of their messages. Rows of one message are sorted by process, and then are as the segment has
    /// them.
    ///
    /// The faults are checked in this order, and a refusal changes nothing:
    ///
    /// - `Stranger`: the segment is of another run, or its process does not exist.
    /// - `Double`: it begins before the end of the last segment of its process.
    /// - `Gap`: it begins after that end, or does not end at the next cut, or that end is the end of the trace.
    /// - `OutOfMemory`: memory is refused.
    pub fn take(&mut self, segment: Segment) -> Result<Option<Batch>, SegmentFault>
        ensures refused { (fault : SegmentFault) → segment_fault self.old segment ≡ Some fault → result ≡ Err fault }
        ensures memory { segment_fault self.old segment ≡ None → IfErr result (λ fault. fault ≡ OutOfMemory) }
        ensures waits { IfOk result (λ given. IfNone given (Waits self.old segment self.new)) }
        ensures gives { IfOk result (λ given. IfSome given (λ batch. Gives self.old segment batch self.new)) }
        ensures unchanged { OnErr result (self.new ≡ self.old) }
    {
        if let Some(fault) = self.fault_of(&segment) {
            return Err(fault);
        }
        let alloc = *self.waiting.allocator();
        let process = usize::from(segment.process());
        match put_segment(alloc, &mut self.waiting, process, segment.into_rows()) {
            Err(_) => Err(SegmentFault::OutOfMemory),
            Ok(None) => Ok(None),
            Ok(Some(rows)) => {
                let from = cut(self.until, self.given);
                self.given += 1;
                Ok(Some(Batch::new(from, cut(self.until, self.given), rows)))
            }
        }
    }
}
