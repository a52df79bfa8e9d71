//! The segments of the trace that a process gives while the run goes on. The moment before which rows have left is where the next segment
//! begins; a number of its own could contradict it.
ghost use Rattle.std.specs.Prelude.{◌≡◌, ◌+◌, ◌<◌, ◌↔◌, ℕ, IsSome, MatchOption, IfSome, IfOk, IfErr, OnErr};
ghost use Rattle.vlink.specs.declared.time.TheConstants.{GREATEST_NS};
ghost use Rattle.journal.specs.declared.fault.PoolFault.TheVariants.{OutOfMemory};
ghost use Rattle.trace_segments.specs.Words.{cut};
ghost use Rattle.process_segments.specs.Segments.{IsIntervalSealed, IsNextSegment, IsSegmentOfRun};

use crate::network_run::Of;
use journal::PoolFault;
use network_runs::{NetworkRun, interval_at};
use nodes::Node;
use process_exchange::Held;
use std::alloc::{AllocError, Global};
use trace_segments::{Segment, cut};
use vlink::Time;

/// Returns the next segment of the trace that a process gives, as a segment of run 0. Its interval begins where its last segment ended. Its
/// rows leave the process. `until` is the end time of the network, in ns. None means that events of the interval can still come or be
/// undone, as far as the process saw, or that the interval does not exist.
///
/// Only memory can be refused, and then nothing changes.
///
/// - `own`: a segment is of run 0 and of the process.
/// - `segment`: it has just the rows of the process and of the interval that the one-thread run of the network has.
/// - `some`: when it returns a segment.
/// - `given`: the next one begins where this one ends.
pub fn next_segment<J: NetworkRun>(
    alloc: Global,
    held: &mut Held<Node, Of<J>>,
    until: Time,
) -> Result<Option<Segment>, PoolFault>
    requires until { until ≡ J.plan.until }
    requires end { until < GREATEST_NS }
    ensures own { IfOk result (λ segment. IfSome segment (λ p. (p.run ≡ 0) × (p.process ≡ held.old.number))) }
    ensures segment { IfOk result (λ segment. IfSome segment (IsNextSegment J.plan held.old)) }
    ensures some { IfOk result (λ segment. IsSome segment ↔ ((k : ℕ) × IsIntervalSealed J.plan k held.old)) }
    ensures given { IfOk result (λ segment. MatchOption segment (held.new ≡ held.old) (λ p. held.new ≡ record held.old { gone = p.to })) }
    ensures refused { OnErr result (held.new ≡ held.old) }
    ensures memory { IfErr result (λ fault. fault ≡ OutOfMemory) }
{
    let Some(k) = interval_at(until, held.gone_before()) else {
        return Ok(None);
    };
    let Some(segment) = sealed_segment(alloc, held, k, until)? else {
        return Ok(None);
    };
    held.let_rows_go(segment.to());
    Ok(Some(segment))
}

/// Returns the segment of interval `k`, as a segment of run 0, if the interval can no longer change at the process, whose rows are still
/// here from its beginning on.
fn sealed_segment<J: NetworkRun>(
    alloc: Global,
    held: &Held<Node, Of<J>>,
    k: u64,
    until: Time,
) -> Result<Option<Segment>, AllocError>
    requires until { until ≡ J.plan.until }
    requires end { until < GREATEST_NS }
    requires few { k < 1024 }
    requires there { held.now.gone ≡ cut until k }
    ensures own { IfOk result (λ segment. IfSome segment (λ p. (p.run ≡ 0) × (p.process ≡ held.now.number))) }
    ensures ends { IfOk result (λ segment. IfSome segment (λ p. (p.from ≡ cut until k) × (p.to ≡ cut until (k + 1)))) }
    ensures segment { IfOk result (λ segment. IfSome segment (IsSegmentOfRun J.plan held.now.number k)) }
    ensures some { IfOk result (λ segment. IsSome segment ↔ IsIntervalSealed J.plan k held.now) }
{
    let from = cut(until, k);
    let to = cut(until, k + 1);
    if !held.is_committed_before(to) {
        return Ok(None);
    }
    let rows = held.rows_between(from, to);
    Segment::cut(alloc, rows, 0, held.number(), k, until)
}
