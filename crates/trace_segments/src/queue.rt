//! The segments of one process that wait for those of the others.
ghost use Rattle.std.specs.Prelude.{◌≡◌, ◌∷◌, ◌++◌, ◌-◌, [], length, take, drop, OnOk, OnErr};
ghost use Rattle.trace_segments.specs.Gathering.{first_of};

use std::alloc::{AllocError, Global};
use std::collections::VecDeque;
use std::marker::Model;
use vlink::Row;

/// The segments of one process that wait, the earliest first.
///
/// Clauses see it as the list of their rows.
#[derive(Drop)]
pub(crate) struct SegmentQueue {
    segments: VecDeque<Vec<Row>>,
}

impl Model for SegmentQueue {
    ghost use Rattle.std.specs.Prelude.{List, map};
    ghost use Rattle.vlink.specs.Letters.{Row};
    ghost use Rattle.trace_segments.specs.Gathering.{rows_in};

    ghost Value = { List (List Row) };

    ghost view = { λ q. map rows_in q.segments.items };
}

impl SegmentQueue {
    /// Makes a queue without segments.
    pub(crate) fn new(alloc: Global) -> Self
        ensures { result ≡ [] }
    {
        SegmentQueue {
            segments: VecDeque::new(alloc),
        }
    }

    /// Returns the number of segments that wait.
    pub(crate) fn len(&self) -> usize
        ensures { result ≡ length self.now }
    {
        self.segments.len()
    }

    /// Adds one segment behind the others. A refusal changes nothing.
    pub(crate) fn push(&mut self, rows: Vec<Row>) -> Result<(), AllocError>
        ensures pushed { OnOk result (self.new ≡ self.old ++ rows.items ∷ []) }
        ensures unchanged { OnErr result (self.new ≡ self.old) }
    {
        self.segments.push_back(rows)?;
        Ok(())
    }

    /// Removes the segment that came last.
    pub(crate) fn pop_last(&mut self)
        ensures { self.new ≡ take (length self.old - 1) self.old }
    {
        let _ = self.segments.pop_back();
    }

    /// Returns the rows of the first segment, or no rows if no segment waits.
    pub(crate) fn first(&self) -> &[Row]
        ensures { result.now ≡ first_of self.now }
    {
        match self.segments.front() {
            Some(rows) => rows.as_slice(),
            None => &[],
        }
    }

    /// Removes the first segment.
    pub(crate) fn pop_first(&mut self)
        ensures { self.new ≡ drop 1 self.old }
    {
        let _ = self.segments.pop_front();
    }
}
