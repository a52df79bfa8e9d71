//! The segments of the trace that a group gives while the run goes on.
ghost use Rattle.std.specs.Prelude.{◌≡◌, ◌+◌, ◌<◌, ◌↔◌, ℕ, IsSome, MatchOption, IfSome, IfOk, OnErr};
ghost use Rattle.vlink.specs.declared.time.TheConstants.{GREATEST_NS};
ghost use Rattle.trace_segments.specs.Words.{cut};
ghost use Rattle.group_end.specs.Together.{OnlyRowsLeft};
ghost use Rattle.worker_pool.specs.Segments.{IsGroupIntervalSealed, IsGroupSegmentOfRun, IsNextGroupSegment};

use group_turns::NetworkGroup;
use network_runs::{NetworkRun, interval_at};
use std::alloc::{AllocError, Global};
use trace_tables::{Segment, cut};
use vlink::Time;

/// Returns the next segment of the trace that a group gives, as a segment of run 0, in the place of the group. Its interval begins where
/// its last segment ended. Its rows leave the group. `until` is the end time of the network, in ns. None means that events of the interval
/// can still come or be undone, as far as the group saw, or that the interval does not exist.
///
/// Only memory can be refused, and then nothing changes.
pub(crate) fn next_group_segment<J: NetworkRun>(
    alloc: Global,
    group: &mut NetworkGroup<J>,
    until: Time,
) -> Result<Option<Segment>, AllocError>
    requires until { until ≡ J.plan.until }
    requires end { until < GREATEST_NS }
    ensures own { IfOk result (λ segment. IfSome segment (λ p. (p.run ≡ 0) × (p.process ≡ group.old.number))) }
    ensures segment { IfOk result (λ segment. IfSome segment (IsNextGroupSegment J.plan J.owners group.old)) }
    ensures some { IfOk result (λ segment. IsSome segment ↔ ((k : ℕ) × IsGroupIntervalSealed J.plan k group.old)) }
    ensures given { IfOk result (λ segment. MatchOption segment (group.new ≡ group.old) (λ p. group.new.gone ≡ p.to)) }
    ensures rows { OnlyRowsLeft group.old group.new }
    ensures refused { OnErr result (group.new ≡ group.old) }
{
    let Some(k) = interval_at(until, group.gone_before()) else {
        return Ok(None);
    };
    let Some(segment) = sealed_segment(alloc, group, k, until)? else {
        return Ok(None);
    };
    group.let_rows_go(segment.to());
    Ok(Some(segment))
}

/// Returns the segment of interval `k`, as a segment of run 0, if the interval can no longer change at the group, whose rows are still here
/// from its beginning on.
fn sealed_segment<J: NetworkRun>(
    alloc: Global,
    group: &NetworkGroup<J>,
    k: u64,
    until: Time,
) -> Result<Option<Segment>, AllocError>
    requires until { until ≡ J.plan.until }
    requires end { until < GREATEST_NS }
    requires few { k < 1024 }
    requires there { group.now.gone ≡ cut until k }
    ensures own { IfOk result (λ segment. IfSome segment (λ p. (p.run ≡ 0) × (p.process ≡ group.now.number))) }
    ensures ends { IfOk result (λ segment. IfSome segment (λ p. (p.from ≡ cut until k) × (p.to ≡ cut until (k + 1)))) }
    ensures segment { IfOk result (λ segment. IfSome segment (IsGroupSegmentOfRun J.plan J.owners group.now.number k)) }
    ensures some { IfOk result (λ segment. IsSome segment ↔ IsGroupIntervalSealed J.plan k group.now) }
{
    let from = cut(until, k);
    let to = cut(until, k + 1);
    if !group.is_committed_before(to) {
        return Ok(None);
    }
    let rows = group.rows_between(from, to);
    Segment::of_group(alloc, rows, 0, group.number(), k, until)
}
