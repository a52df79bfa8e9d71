//! The rows of one process in one interval of the trace.
ghost use Rattle.std.specs.Prelude.{◌≡◌, ◌<◌, ◌↔◌, IsSome, IfSome, IfOk};
ghost use Rattle.std.specs.List.{filter};
ghost use Rattle.trace_segments.specs.Intervals.{HasInterval, rows_within};
ghost use Rattle.trace_segments.specs.Segments.{group_segment_of, is_at_within, is_between, segment_of};

use crate::interval::{cut, has_interval};
use std::alloc::{AllocError, Global};
use std::marker::Model;
use vlink::{GREATEST_NS, Row, Time};

/// The rows of one process of a run, or of one group of processes, at or after one moment and before another.
///
/// Clauses see it as the run, the number of the process or group, the two moments in ns, and the rows.
#[derive(Drop)]
pub struct Segment {
    run: u64,
    process: u16,
    from: Time,
    to: Time,
    rows: Vec<Row>,
}

impl Model for Segment {
    ghost use Rattle.trace_segments.specs.Segments.{SegmentRows};

    ghost Value = { SegmentRows };

    ghost view = { λ p. record { run = p.run; process = p.process; from = p.from; to = p.to; rows = p.rows.items } };
}

/// Whether the row is of this process, and of a moment at or after `from` and before `to`.
fn is_within(row: &Row, process: u16, from: Time, to: Time) -> bool
    ensures { result ≡ is_at_within process from to row.now }
{
    let time = row.message.time.ns();
    row.place == process && from.ns() <= time && time < to.ns()
}

/// Returns the rows of this process whose moments are at or after `from` and before `to`, in their order.
fn rows_of_process(
    alloc: Global,
    rows: &[Row],
    process: u16,
    from: Time,
    to: Time,
) -> Result<Vec<Row>, AllocError>
    ensures { IfOk result (λ found. found.items ≡ filter (is_at_within process from to) rows.now) }
{
    rows.iter()
        .copied()
        .filter(|row| is_within(row, process, from, to))
        .collect(alloc)
}

/// Whether the row is of a moment at or after `from` and before `to`.
fn is_between(row: &Row, from: Time, to: Time) -> bool
    ensures { result ≡ is_between from to row.now }
{
    let time = row.message.time.ns();
    from.ns() <= time && time < to.ns()
}

/// Returns the rows whose moments are at or after `from` and before `to`, in their order.
fn rows_between(alloc: Global, rows: &[Row], from: Time, to: Time) -> Result<Vec<Row>, AllocError>
    ensures { IfOk result (λ found. found.items ≡ rows_within from to rows.now) }
{
    rows.iter()
        .copied()
        .filter(|row| is_between(row, from, to))
        .collect(alloc)
}

impl Segment {
    /// Makes the segment of interval `k` of a run until `until`, for a group. The rows given are of the group's processes; the segment has
    /// those of the interval, in their order. None if the interval does not exist. It fails only if memory is refused.
    pub fn of_group(
        alloc: Global,
        rows: &[Row],
        run: u64,
        group: u16,
        k: u64,
        until: Time,
    ) -> Result<Option<Segment>, AllocError>
        requires { until < GREATEST_NS }
        ensures some { IfOk result (λ segment. IsSome segment ↔ HasInterval until k) }
        ensures segment { IfOk result (λ segment. IfSome segment (λ p. p ≡ group_segment_of run group k until rows.now)) }
    {
        if !has_interval(until, k) {
            return Ok(None);
        }
        let from = cut(until, k);
        let to = cut(until, k + 1);
        let rows = rows_between(alloc, rows, from, to)?;
        Ok(Some(Segment {
            run,
            process: group,
            from,
            to,
            rows,
        }))
    }

    /// Makes the segment of interval `k` of a run until `until`: the rows of the process and of the interval among these rows, in their
    /// order. None if the interval does not exist. It fails only if memory is refused.
    pub fn cut(
        alloc: Global,
        rows: &[Row],
        run: u64,
        process: u16,
        k: u64,
        until: Time,
    ) -> Result<Option<Segment>, AllocError>
        requires { until < GREATEST_NS }
        ensures some { IfOk result (λ segment. IsSome segment ↔ HasInterval until k) }
        ensures segment { IfOk result (λ segment. IfSome segment (λ p. p ≡ segment_of run process k until rows.now)) }
    {
        if !has_interval(until, k) {
            return Ok(None);
        }
        let from = cut(until, k);
        let to = cut(until, k + 1);
        let rows = rows_of_process(alloc, rows, process, from, to)?;
        Ok(Some(Segment {
            run,
            process,
            from,
            to,
            rows,
        }))
    }

    /// Returns the number of the run.
    pub fn run(&self) -> u64
        ensures { result ≡ self.now.run }
    {
        self.run
    }

    /// Returns the number of the process or group.
    pub fn process(&self) -> u16
        ensures { result ≡ self.now.process }
    {
        self.process
    }

    /// Returns the moment at which the segment begins.
    pub fn from(&self) -> Time
        ensures { result ≡ self.now.from }
    {
        self.from
    }

    /// Returns the moment before which it ends.
    pub fn to(&self) -> Time
        ensures { result ≡ self.now.to }
    {
        self.to
    }

    /// Returns the rows, in their order.
    pub fn rows(&self) -> &[Row]
        ensures { result.now ≡ self.now.rows }
    {
        self.rows.as_slice()
    }

    /// Returns the rows, and drops the rest.
    pub(crate) fn into_rows(self) -> Vec<Row>
        ensures { result.items ≡ self.rows }
    {
        let Segment { rows, .. } = self;
        rows
    }
}
