//! The rows of all processes in one interval of the trace.
ghost use Rattle.std.specs.Prelude.{◌≡◌};

use std::marker::Model;
use vlink::{Row, Time};

/// The rows of all processes of a run at or after one moment and before another, in the order of their messages. Rows of one message are
/// sorted by process, and then are as the segment of the process has them.
///
/// Clauses see it as the two moments in ns, and the rows.
#[derive(Drop)]
pub struct Batch {
    from: Time,
    to: Time,
    rows: Vec<Row>,
}

impl Model for Batch {
    ghost use Rattle.trace_segments.specs.Segments.{BatchRows};

    ghost Value = { BatchRows };

    ghost view = { λ b. record { from = b.from; to = b.to; rows = b.rows.items } };
}

impl Batch {
    /// Makes a batch of these rows, for this interval.
    pub(crate) fn new(from: Time, to: Time, rows: Vec<Row>) -> Self
        ensures { result ≡ record { from = from; to = to; rows = rows.items } }
    {
        Batch { from, to, rows }
    }

    /// Returns the moment at which the batch begins.
    pub fn from(&self) -> Time
        ensures { result ≡ self.now.from }
    {
        self.from
    }

    /// Returns the moment before which it ends.
    pub fn to(&self) -> Time
        ensures { result ≡ self.now.to }
    {
        self.to
    }

    /// Returns the rows, in their order.
    pub fn rows(&self) -> &[Row]
        ensures { result.now ≡ self.now.rows }
    {
        self.rows.as_slice()
    }
}
