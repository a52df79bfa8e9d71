//! Handles the first message of the queue, if other members have done later events. These stay done.
ghost use Rattle.std.specs.Prelude.{◌≡◌, ◌≢◌, ℕ, ◌⊎◌, ◌+◌, ◌<◌, ◌≤◌, ◌++◌, [], true, false, All, Contains, List, Option, Some, length, map, slice_get};
ghost use Rattle.vlink.specs.declared.message.Message.{Message};
ghost use Rattle.vlink.specs.Numbering.{greatest_number};
ghost use Rattle.vlink.specs.Order.{message_order};
ghost use Rattle.virtual_time.specs.Law.{IsAscending, plus_of};
ghost use Rattle.reverse.specs.Rules.{rules_of, is_before};
ghost use Rattle.group_hand.specs.Arriving.{WentOn};
ghost use Rattle.group_queues.specs.Block.{AddsRun};
ghost use Rattle.group_queues.specs.DoneEvents.{DoneEvent, messages_of, HasRoomFor};
ghost use Rattle.group_hand.specs.Handling.{HasLater, SetAside, StopsAt};
ghost use Rattle.group_hand.specs.Hands.{DoesSent};
ghost use Rattle.group_hand.specs.Passing.{held};
ghost use Rattle.group_queues.specs.Rows.{Sealed};
ghost use Rattle.group_hand.specs.Undoing.{CameTo};
ghost use Rattle.reverse.specs.declared.sends.TheConstants.{MOST_SENT};

use crate::members::{act, is_ours};
use group_queues::{DoneEvents, Letters, Word};
use reverse::{Actor, Outbound, actor_rules_law};
use vlink::Message;

/// Passes on what an event sent. What is for members waits in the tray. The room for it was made before.
fn send_later<S>(members: &[Option<S>], letters: &mut Letters, messages: &[Message])
    requires { length messages.now ≤ letters.old.room }
    ensures went { WentOn members.now (map plus_of messages.now) letters.old letters.new }
    ensures queue { letters.new.queue ≡ letters.old.queue }
    ensures extra { letters.new.extra ≡ letters.old.extra }
{
    for place in 0..messages.len() {
        let message = &messages[place];
        letters.pass_later(message, is_ours(members, message.receiver));
    }
}

/// Sets the newest event aside, if it does not come before the message and is of another process than its receiver. Returns whether it did.
fn set_newest_aside<K: Copy>(
    done: &mut DoneEvents<K>,
    aside: &mut DoneEvents<K>,
    message: &Message,
) -> bool
    requires space { HasRoomFor done.old.events aside.old }
    ensures aside { (all : List (DoneEvent K)) → SetAside message_order message.now all done.old.events aside.old.events → SetAside message_order message.now all done.new.events aside.new.events }
    ensures space { HasRoomFor done.new.events aside.new }
    ensures again { (more : List (DoneEvent K)) → HasRoomFor (more ++ aside.old.events) done.old → HasRoomFor (more ++ aside.new.events) done.new }
    ensures fewer { result ≡ true → length done.new.events + 1 ≡ length done.old.events }
    ensures stops { result ≡ false → StopsAt message_order message.now done.new.events }
{
    if done.is_before(message) || done.newest_is_for(message.receiver) {
        return false;
    }
    done.move_newest(aside);
    true
}

/// Sets the newest events aside, up to one that comes before the message or is of its receiver.
fn set_aside<K: Copy>(done: &mut DoneEvents<K>, aside: &mut DoneEvents<K>, message: &Message)
    requires empty { aside.old.events ≡ [] }
    requires space { HasRoomFor done.old.events aside.old }
    ensures aside { SetAside message_order message.now done.old.events done.new.events aside.new.events }
    ensures again { (more : List (DoneEvent K)) → HasRoomFor more done.old → HasRoomFor (more ++ aside.new.events) done.new }
    ensures stops { StopsAt message_order message.now done.new.events }
{
    'events: while set_newest_aside(done, aside, message) {}
}

/// Handles the message, which is the first of the queue and not done, and whose receiver is a member with numbers left. Later events of
/// other members stay behind its own. The room for all that results was made before.
pub(crate) fn handle_out_of_order<R: Actor>(
    members: &mut [Option<R>],
    done: &mut DoneEvents<R::Record>,
    aside: &mut DoneEvents<R::Record>,
    letters: &mut Letters,
    out: &mut Outbound,
    message: &Message,
)
    requires among { Contains letters.old.queue message.now }
    requires first { All (λ x. is_before x message.now ≡ false) letters.old.queue }
    requires not_done { IsAscending message_order (messages_of done.old.events) → All (λ x. x ≢ message.now) (messages_of done.old.events) }
    requires able { (s : R) × (slice_get members.old message.now.receiver ≡ Some (Some s)) × (R.plain.counter s + MOST_SENT ≤ greatest_number) }
    requires came { (p : ℕ) → CameTo (rules_of R.plain) R.is_value members.old done.old.events p }
    requires empty { aside.old.events ≡ [] }
    requires space { HasRoomFor done.old.events aside.old }
    requires room { MOST_SENT + 1 ≤ letters.old.room }
    requires events { 1 ≤ done.old.events_room }
    requires sends { MOST_SENT ≤ done.old.sends_room }
    requires rows { 2 ≤ done.old.rows_room }
    ensures len { length members.new ≡ length members.old }
    ensures did { (rows : Sealed) → DoesSent (rules_of R.plain) R.is_value (held members.old done.old.events rows letters.old) [] (held members.new done.new.events rows letters.new) [] }
    ensures came { (p : ℕ) → CameTo (rules_of R.plain) R.is_value members.new done.new.events p }
    ensures empty { aside.new.events ≡ [] }
    ensures words { AddsRun message.now.receiver letters.old.words letters.new.words ⊎ HasLater message_order message.now done.old.events }
    ensures handled { (length done.new.events ≡ length done.old.events + 1) ⊎ HasLater message_order message.now done.old.events }
{
    actor_rules_law::<R>();
    set_aside(done, aside, message);
    if !done.is_before(message) {
        done.bring_back(aside);
        return;
    }
    letters.take_first(message);
    let kept = act(members, message, out);
    done.push_reserved(message, kept, out.messages(), out.notes());
    letters.tell(Word::Ran {
        process: message.receiver,
    });
    send_later(members, letters, out.messages());
    done.bring_back(aside);
}
