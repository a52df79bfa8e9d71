//! Handles the first message of a group, if it comes after all that the group has done.
ghost use Rattle.std.specs.Prelude.{◌≡◌, ℕ, ◌+◌, ◌≤◌, ◌++◌, ◌∷◌, true, [], Some, length, slice_get};
ghost use Rattle.vlink.specs.Order.{message_order};
ghost use Rattle.vlink.specs.Numbering.{greatest_number};
ghost use Rattle.reverse.specs.Rules.{rules_of};
ghost use Rattle.antimessages.specs.Counting.{is_after, newest_of};
ghost use Rattle.group_hand.specs.Becoming.{Becomes};
ghost use Rattle.group_queues.specs.Block.{AddsRun};
ghost use Rattle.group_queues.specs.DoneEvents.{DoneEvent, messages_of};
ghost use Rattle.group_hand.specs.Hands.{DoesSent};
ghost use Rattle.group_queues.specs.Flow.{Flow, TookFirst};
ghost use Rattle.group_hand.specs.Passing.{held};
ghost use Rattle.group_queues.specs.Rows.{Sealed};
ghost use Rattle.group_hand.specs.Undoing.{CameTo};
ghost use Rattle.reverse.specs.declared.sends.TheConstants.{MOST_SENT};

use crate::fault::HandFault;
use crate::members::{act, has_numbers, send_all};
use group_queues::{DoneEvents, Letters, Word};
use reverse::{Actor, Outbound, actor_rules_law};
use vlink::{Message, Time};

/// The result for the first message of a group.
#[derive(Clone, Copy)]
pub enum InOrder {
    /// It was handled.
    Ran,
    /// No message is earlier than the limit.
    Idle,
    /// Some done event does not come before it.
    Late,
}

/// Handles the first message, which was taken out of the queue and whose receiver is a member with numbers left. What it sends is passed
/// on. The room for all that results was made before.
#[inline(always)]
pub(crate) fn handle_in_order<R: Actor>(
    members: &mut [Option<R>],
    done: &mut DoneEvents<R::Record>,
    letters: &mut Letters,
    out: &mut Outbound,
    message: &Message,
)
    requires early { is_after message_order (newest_of (messages_of done.old.events)) message.now ≡ true }
    requires able { (s : R) × (slice_get members.old message.now.receiver ≡ Some (Some s)) × (R.plain.counter s + MOST_SENT ≤ greatest_number) }
    requires room { MOST_SENT + 1 ≤ letters.old.room }
    requires events { 1 ≤ done.old.events_room }
    requires sends { MOST_SENT ≤ done.old.sends_room }
    requires rows { 2 ≤ done.old.rows_room }
    ensures len { length members.new ≡ length members.old }
    ensures did { (rows : Sealed) (before : Flow) → TookFirst message.now before letters.old →
        DoesSent (rules_of R.plain) R.is_value (held members.old done.old.events rows before) [] (held members.new done.new.events rows letters.new) [] }
    ensures words { AddsRun message.now.receiver letters.old.words letters.new.words }
    ensures done { (d : DoneEvent R.Record) × (done.new.events ≡ done.old.events ++ d ∷ []) × (d.message ≡ message.now) }
    ensures came { ((p : ℕ) → CameTo (rules_of R.plain) R.is_value members.old done.old.events p) → (p : ℕ) → CameTo (rules_of R.plain) R.is_value members.new done.new.events p }
{
    actor_rules_law::<R>();
    let kept = act(members, message, out);
    done.push_reserved(message, kept, out.messages(), out.notes());
    letters.tell(Word::Ran {
        process: message.receiver,
    });
    send_all(members, letters, out.messages());
}

/// Returns the result for the first message of a group: whether it is earlier than the limit, comes after all that the group has done, and
/// its receiver is a member with numbers left for what one event can send.
#[inline(always)]
pub(crate) fn in_order_of<R: Actor>(
    members: &[Option<R>],
    done: &DoneEvents<R::Record>,
    message: &Message,
    limit: Time,
) -> Result<InOrder, HandFault>
    ensures { Becomes (λ s. R.plain.counter s) members.now done.now.events message.now limit result }
{
    if message.time >= limit {
        return Ok(InOrder::Idle);
    }
    if !done.is_before(message) {
        return Ok(InOrder::Late);
    }
    if !has_numbers(members, message.receiver) {
        return Err(HandFault::Exhausted);
    }
    Ok(InOrder::Ran)
}
