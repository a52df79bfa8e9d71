//! Rows of all processes in one order, that of their messages.
ghost use Rattle.std.specs.Prelude.{ℕ, ◌≡◌, OnOk, OnErr};
ghost use Rattle.std.specs.List.Sorted.{IsPermutation};
ghost use Rattle.virtual_time.specs.Law.{rows_at};
ghost use Rattle.vlink.specs.Order.{message_order};
ghost use Rattle.vlink.specs.declared.message.Message.{Message};
ghost use Rattle.vlink.specs.Order.{message_cmp};
ghost use Rattle.trace_segments.specs.Ordered.{AreInMessageOrder, rows_of_event};

use std::alloc::AllocError;
use std::cmp::Ordering;
use vlink::{Row, compare, message_order_law};

/// Compares two rows by their messages.
#[inline(always)]
fn by_message(a: &Row, b: &Row) -> Ordering
    ensures { result ≡ message_cmp a.now.message b.now.message }
{
    message_order_law();
    compare(&a.message, &b.message)
}

/// Sorts rows into message order, as the one-thread run has them. So rows that were gathered process by process become one list, in which
/// the rows of each process are as they were gathered.
///
/// It fails only if memory is refused, and then leaves the rows as they were.
///
/// - `ascending`: no row's message comes before that of the row before it.
/// - `moved`: the rows are the same ones.
/// - `each_event`: the rows of one event, which have one message, stay in their order.
/// - `each_process`: the rows of a process stay in their order, if they were in message order.
pub fn put_in_message_order(rows: &mut Vec<Row>) -> Result<(), AllocError>
    ensures ascending { OnOk result (AreInMessageOrder rows.new.items) }
    ensures moved { IsPermutation rows.old.items rows.new.items }
    ensures each_event { (m : Message) → rows_of_event m rows.new.items ≡ rows_of_event m rows.old.items }
    ensures each_process { (p : ℕ) → AreInMessageOrder (rows_at p rows.old.items) → rows_at p rows.new.items ≡ rows_at p rows.old.items }
    ensures unchanged { OnErr result (rows.new.items ≡ rows.old.items) }
{
    message_order_law();
    rows.sort_by(by_message)
}
