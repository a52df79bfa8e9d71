//! Properties of the batches of a trace, one after another.
ghost use Rattle.std.specs.Prelude.{ℕ, ◌≡◌, ◌+◌, ◌<◌, ◌≤◌, ◌++◌, [], Bool, List, All};
ghost use Rattle.std.specs.List.{filter, flat_map, range_with_len};
ghost use Rattle.virtual_time.specs.Law.{rows_at};
ghost use Rattle.vlink.specs.Order.{message_order};
ghost use Rattle.vlink.specs.Letters.{Row};
ghost use Rattle.trace_segments.specs.Places.{IsOfOneGroup, gathered};
ghost use Rattle.trace_segments.specs.Intervals.{cut, interval_count, rows_within, rows_before, rows_from};
ghost use Rattle.trace_segments.specs.Ordered.{AreInMessageOrder, AreAtReceivers, IsInOrder};

use vlink::message_order_law;

/// Properties of the batches of a run, if the segments of each process have the rows that the process has in the run.
///
/// - `batch`: the batch of an interval has the run's rows of that interval, in message order.
/// - `batches`: the first batches, one after another, are the rows before a cut, in message order.
/// - `beginning`: these rows are a beginning of all rows in message order.
/// - `whole`: the rows before the last cut are all rows, if none is later than the end.
/// - `by_process`: rows in message order are, in order, what the processes have, if each row is of the process that received its message,
///   and only these processes have rows.
/// - `by_group`: they are also, in order, what groups of these processes have, if each process is in just one group.
pub fn batches_in_order_law()
    ensures batch { (processes from to : ℕ) (rows_of : ℕ → List Row) (rows batch : List Row)
        → IsInOrder (gathered processes rows_of) rows → IsInOrder (gathered processes (λ p. rows_within from to (rows_of p))) batch → batch ≡ rows_within from to rows }
    ensures batches { (until processes count : ℕ) (rows_of : ℕ → List Row) (rows : List Row) (batches : ℕ → List Row)
        → IsInOrder (gathered processes rows_of) rows → ((k : ℕ) → k < count → IsInOrder (gathered processes (λ p. rows_within (cut until k) (cut until (k + 1)) (rows_of p))) (batches k))
        → flat_map batches (range_with_len 0 count) ≡ rows_before (cut until count) rows }
    ensures beginning { (moment : ℕ) (rows : List Row) → AreInMessageOrder rows → rows ≡ rows_before moment rows ++ rows_from moment rows }
    ensures whole { (until : ℕ) (rows : List Row) → All (λ row. row.message.time ≤ until) rows
        → rows_before (cut until (interval_count until)) rows ≡ rows }
    ensures by_process { (processes : ℕ) (rows : List Row) → AreAtReceivers rows → AreInMessageOrder rows
        → ((p : ℕ) → processes ≤ p → rows_at p rows ≡ []) → IsInOrder (gathered processes (λ p. rows_at p rows)) rows }
    ensures by_group { (ours : ℕ → ℕ → Bool) (groups processes : ℕ) (rows : List Row) → AreAtReceivers rows → AreInMessageOrder rows
        → ((p : ℕ) → processes ≤ p → rows_at p rows ≡ []) → ((p : ℕ) → p < processes → IsOfOneGroup ours groups p)
        → IsInOrder (gathered groups (λ g. filter (λ row. ours g row.place) rows)) rows }
{
    message_order_law();
}
