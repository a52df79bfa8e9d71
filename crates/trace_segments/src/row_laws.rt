//! Rows in message order depend on the rows of each process alone.
ghost use Rattle.std.specs.Prelude.{ℕ, ◌≡◌, List};
ghost use Rattle.virtual_time.specs.Law.{rows_at};
ghost use Rattle.vlink.specs.Order.{message_order};
ghost use Rattle.vlink.specs.declared.message.Message.{Message};
ghost use Rattle.vlink.specs.Letters.{Row};
ghost use Rattle.trace_segments.specs.Ordered.{AreInMessageOrder, AreAtReceivers, rows_of_event};

use vlink::message_order_law;

/// Rows in message order depend only on the rows of each process, in their order there. So a run whose rows are gathered process by
/// process, and put in message order, has the very rows of the one-thread run, if each process has the rows that it has there.
///
/// - `by_place`: rows in message order that are the same at each process are the same, if each row is of the process that received its
///   message.
/// - `by_event`: rows in message order that are the same for each event are the same.
/// - `events`: in any order, rows that are the same at each process are the same for each event.
pub fn rows_by_place_law()
    ensures by_place { (xs ys : List Row) → AreAtReceivers xs → AreInMessageOrder xs → AreInMessageOrder ys → ((p : ℕ) → rows_at p xs ≡ rows_at p ys) → xs ≡ ys }
    ensures by_event { (xs ys : List Row) → AreInMessageOrder xs → AreInMessageOrder ys →
        ((m : Message) → rows_of_event m xs ≡ rows_of_event m ys) → xs ≡ ys }
    ensures events { (xs ys : List Row) → AreAtReceivers xs → ((p : ℕ) → rows_at p xs ≡ rows_at p ys) → (m : Message) → rows_of_event m xs ≡ rows_of_event m ys }
{
    message_order_law();
}
