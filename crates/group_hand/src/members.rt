//! The members of a group, by their numbers.
ghost use Rattle.std.specs.Prelude.{◌≡◌, ℕ, ◌+◌, ◌<◌, ◌≤◌, [], Option, Some, true, false, length, slice_get};
ghost use Rattle.std.proofs.Math.ListN.{set};
ghost use Rattle.vlink.specs.Numbering.{greatest_number};
ghost use Rattle.reverse.specs.Plain.{CameFrom};
ghost use Rattle.reverse.specs.Rules.{rules_of};
ghost use Rattle.group_hand.specs.Hands.{is_ours};
ghost use Rattle.group_hand.specs.Passing.{GoesOn};
ghost use Rattle.reverse.specs.declared.sends.TheConstants.{MOST_SENT};

use group_queues::Letters;
use reverse::{Actor, Outbound, actor_rules_law};
use vlink::Message;

/// Whether the process is a member of the group.
#[inline(always)]
pub(crate) fn is_ours<S>(members: &[Option<S>], process: u16) -> bool
    ensures { result ≡ is_ours members.now process }
{
    match members.get(usize::from(process)) {
        Some(Some(_)) => true,
        Some(None) => false,
        None => false,
    }
}

/// Whether the process is a member of the group, and has numbers left for all that one event can send.
#[inline(always)]
pub(crate) fn has_numbers<R: Actor>(members: &[Option<R>], process: u16) -> bool
    ensures yes { result ≡ true → (s : R) × (slice_get members.now process ≡ Some (Some s)) × (R.plain.counter s + MOST_SENT ≤ greatest_number) }
    ensures no { result ≡ false → (s : R) → slice_get members.now process ≡ Some (Some s) → greatest_number < R.plain.counter s + MOST_SENT }
{
    match members.get(usize::from(process)) {
        Some(Some(actor)) => actor.has_numbers(),
        Some(None) => false,
        None => false,
    }
}

/// The receiver, which is a member of the group, handles the message: `out` has what it sends and notes. Returns the record by which the
/// message is undone.
#[inline(always)]
pub(crate) fn act<R: Actor>(
    members: &mut [Option<R>],
    message: &Message,
    out: &mut Outbound,
) -> R::Record
    requires within { message.now.receiver < length members.old }
    requires able { (s : R) × (slice_get members.old message.now.receiver ≡ Some (Some s)) × (R.plain.counter s + MOST_SENT ≤ greatest_number) }
    ensures len { length members.new ≡ length members.old }
    ensures members { (s : R) → slice_get members.old message.now.receiver ≡ Some (Some s) → members.new ≡ set members.old message.now.receiver (Some (R.plain.after s message.now)) }
    ensures messages { (s : R) → slice_get members.old message.now.receiver ≡ Some (Some s) → out.new.messages ≡ (R.plain.out s message.now).messages.items }
    ensures notes { (s : R) → slice_get members.old message.now.receiver ≡ Some (Some s) → out.new.notes ≡ (R.plain.out s message.now).notes.items }
    ensures saved { (s : R) → slice_get members.old message.now.receiver ≡ Some (Some s) → result ≡ R.plain.saves s message.now }
    ensures valid { (s : R) → slice_get members.old message.now.receiver ≡ Some (Some s) → R.is_value s message.now }
{
    match &mut members[usize::from(message.receiver)] {
        Some(actor) => actor.handle(message, out),
        None => unreachable!(),
    }
}

/// The receiver, if it is a member of the group, undoes the message by the record that it left.
pub(crate) fn undo<R: Actor>(members: &mut [Option<R>], message: &Message, kept: R::Record)
    requires { (s : R) → slice_get members.old message.now.receiver ≡ Some (Some s) → CameFrom R.plain R.is_value s message.now kept }
    ensures len { length members.new ≡ length members.old }
    ensures member { (s : R) → slice_get members.old message.now.receiver ≡ Some (Some s) → slice_get members.new message.now.receiver ≡ Some (Some (R.plain.before s message.now kept)) }
    ensures others { (q : ℕ) → (q ≡ message.now.receiver → ⊥) → slice_get members.new q ≡ slice_get members.old q }
    ensures ours { (q : ℕ) → is_ours members.new q ≡ is_ours members.old q }
{
    let place = usize::from(message.receiver);
    if place < members.len() {
        match &mut members[place] {
            Some(actor) => actor.undo(message, kept),
            None => {}
        }
    }
}

/// Passes on the messages that one event sent: those for members as letters that are taken, the others to the letters for others. The room
/// for them was made before.
#[inline(always)]
pub(crate) fn send_all<R: Actor>(members: &[Option<R>], letters: &mut Letters, messages: &[Message])
    requires room { length messages.now ≤ letters.old.room }
    ensures went { GoesOn (rules_of R.plain) R.is_value members.now messages.now letters.old messages.now letters.new [] }
{
    actor_rules_law::<R>();
    for place in 0..messages.len() {
        let message = &messages[place];
        letters.pass(message, is_ours(members, message.receiver));
    }
}
