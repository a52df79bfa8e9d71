//! The segments of all processes that wait.
ghost use Rattle.std.specs.Prelude.{◌≡◌, ◌<◌, ◌∷◌, [], true, false, length, map, drop, IfOk, IfSome, IfNone, OnErr};
ghost use Rattle.std.specs.List.{repeat};
ghost use Rattle.trace_segments.specs.Gathering.{are_all_there, first_rows, with_segment};
ghost use Rattle.trace_segments.specs.Ordered.{IsInOrder};

use crate::ordering::put_in_message_order;
use crate::queue::SegmentQueue;
use std::alloc::{AllocError, Global};
use vlink::Row;

/// Makes an empty queue for each of this number of processes.
pub(crate) fn none_waiting(alloc: Global, processes: u16) -> Result<Vec<SegmentQueue>, AllocError>
    ensures { IfOk result (λ waiting. waiting.items ≡ repeat processes ([] ∷ [])) }
{
    let mut waiting = Vec::new(alloc);
    for _process in 0..processes {
        waiting.push(SegmentQueue::new(alloc))?;
    }
    Ok(waiting)
}

/// Whether a segment of each process waits.
fn are_all_there(waiting: &[SegmentQueue]) -> bool
    ensures { result ≡ are_all_there waiting.now }
{
    waiting.iter().all(|segments| segments.len() > 0)
}

/// Returns the rows of the first segment of each process, process by process.
fn first_rows(alloc: Global, waiting: &[SegmentQueue]) -> Result<Vec<Row>, AllocError>
    ensures { IfOk result (λ rows. rows.items ≡ first_rows waiting.now) }
{
    let mut rows = Vec::new(alloc);
    for segments in waiting {
        rows.extend_from_slice(segments.first())?;
    }
    Ok(rows)
}

/// Returns the same rows in message order.
fn rows_in_order(alloc: Global, waiting: &[SegmentQueue]) -> Result<Vec<Row>, AllocError>
    ensures { IfOk result (λ rows. IsInOrder (first_rows waiting.now) rows.items) }
{
    let mut rows = first_rows(alloc, waiting)?;
    put_in_message_order(&mut rows)?;
    Ok(rows)
}

/// Removes the first segment of each process.
fn pop_firsts(waiting: &mut Vec<SegmentQueue>)
    ensures { waiting.new.items ≡ map (drop 1) waiting.old.items }
{
    for place in 0..waiting.len() {
        waiting[place].pop_first();
    }
}

/// Adds one segment of a process. If a segment of each process waits now, removes the first segment of each, and returns their rows in
/// message order. A refusal changes nothing.
pub(crate) fn put_segment(
    alloc: Global,
    waiting: &mut Vec<SegmentQueue>,
    process: usize,
    rows: Vec<Row>,
) -> Result<Option<Vec<Row>>, AllocError>
    requires { process < length waiting.old.items }
    ensures missing { IfOk result (λ given. IfNone given (are_all_there (with_segment process rows.items waiting.old.items) ≡ false)) }
    ensures kept { IfOk result (λ given. IfNone given (waiting.new.items ≡ with_segment process rows.items waiting.old.items)) }
    ensures complete { IfOk result (λ given. IfSome given (λ _. are_all_there (with_segment process rows.items waiting.old.items) ≡ true)) }
    ensures rows { IfOk result (λ given. IfSome given (λ sorted.
        IsInOrder (first_rows (with_segment process rows.items waiting.old.items)) sorted.items)) }
    ensures left { IfOk result (λ given. IfSome given (λ _. waiting.new.items ≡ map (drop 1) (with_segment process rows.items waiting.old.items))) }
    ensures unchanged { OnErr result (waiting.new.items ≡ waiting.old.items) }
{
    waiting[process].push(rows)?;
    if !are_all_there(waiting.as_slice()) {
        return Ok(None);
    }
    match rows_in_order(alloc, waiting.as_slice()) {
        Ok(sorted) => {
            pop_firsts(waiting);
            Ok(Some(sorted))
        }
        Err(fault) => {
            waiting[process].pop_last();
            Err(fault)
        }
    }
}
