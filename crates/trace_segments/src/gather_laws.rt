//! Properties of the segments of a gathering and of its batches, if the segments have the rows of their processes.
ghost use Rattle.std.specs.Prelude.{ℕ, ◌≡◌, None, List, length};
ghost use Rattle.vlink.specs.Letters.{Row};
ghost use Rattle.trace_segments.specs.Places.{gathered};
ghost use Rattle.trace_segments.specs.Gathered.{IsOfRows};
ghost use Rattle.trace_segments.specs.Gathering.{Gathering, no_segments, segment_fault, Waits, Gives};
ghost use Rattle.trace_segments.specs.Intervals.{rows_within};
ghost use Rattle.trace_segments.specs.Ordered.{IsInOrder};
ghost use Rattle.trace_segments.specs.Segments.{SegmentRows, BatchRows};

/// What `Gather::take` stores and returns, if each segment that it takes has the rows of its process and interval.
///
/// - `none`: if no segment waits, what waits are rows of each process.
/// - `waits`, `gives`: this stays so after a segment is taken.
/// - `batch`: a batch has the rows of all processes and of its interval, in message order.
pub fn segments_of_rows_law()
    ensures none { (run processes until : ℕ) (rows_of : ℕ → List Row) → IsOfRows (no_segments run processes until) rows_of }
    ensures waits { (old new : Gathering) (segment : SegmentRows) (rows_of : ℕ → List Row) → IsOfRows old rows_of → segment_fault old segment ≡ None
        → segment.rows ≡ rows_within segment.from segment.to (rows_of segment.process) → Waits old segment new → IsOfRows new rows_of }
    ensures gives { (old new : Gathering) (segment : SegmentRows) (batch : BatchRows) (rows_of : ℕ → List Row) → IsOfRows old rows_of → segment_fault old segment ≡ None
        → segment.rows ≡ rows_within segment.from segment.to (rows_of segment.process) → Gives old segment batch new → IsOfRows new rows_of }
    ensures batch { (old new : Gathering) (segment : SegmentRows) (batch : BatchRows) (rows_of : ℕ → List Row) → IsOfRows old rows_of → segment_fault old segment ≡ None
        → segment.rows ≡ rows_within segment.from segment.to (rows_of segment.process) → Gives old segment batch new
        → IsInOrder (gathered (length old.waiting) (λ p. rows_within batch.from batch.to (rows_of p))) batch.rows }
{}
