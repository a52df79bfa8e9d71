//! A member goes back to a message: what it has done from there on is undone, the newest first. What others have done stays.
ghost use Rattle.std.specs.Prelude.{◌≡◌, ℕ, ◌+◌, ◌<◌, ◌≤◌, true, false, [], Option, length, vec_len, vec_capacity, OnOk};
ghost use Rattle.vlink.specs.declared.message.Message.{Message};
ghost use Rattle.vlink.specs.Order.{message_order};
ghost use Rattle.reverse.specs.Rules.{rules_of};
ghost use Rattle.antimessages.specs.Counting.{is_after, newest_of};
ghost use Rattle.group_queues.specs.DoneEvents.{messages_of, HasRoomFor, sent_in};
ghost use Rattle.group_hand.specs.Undoing.{CameTo, Retreat, RollsBack, RolledBack};

use crate::members::undo;
use group_queues::{DoneEvents, Letters};
use reverse::{Actor, actor_rules_law};
use std::alloc::{AllocError, Global};
use vlink::Message;

/// What a rollback needs besides; empty between calls.
#[derive(Drop)]
pub(crate) struct Undoing<K: Copy> {
    /// Later events of other members, which stay done; the newest is at the front.
    pub(crate) aside: DoneEvents<K>,
    /// What the undone events sent, the last first.
    pub(crate) back: Vec<Message>,
}

impl<K: Copy> Undoing<K> {
    /// Makes empty lists.
    pub(crate) fn new(alloc: Global) -> Self
        ensures aside { result.aside.events ≡ [] }
        ensures back { result.back.items ≡ [] }
    {
        Undoing {
            aside: DoneEvents::new(alloc),
            back: Vec::new(alloc),
        }
    }

    /// Makes room for all that a rollback of these events can need.
    pub(crate) fn reserve_for(&mut self, done: &DoneEvents<K>) -> Result<(), AllocError>
        ensures space { OnOk result (HasRoomFor done.now.events self.new.aside) }
        ensures sends { OnOk result (vec_len self.new.back + sent_in done.now.events ≤ vec_capacity self.new.back) }
        ensures aside { self.new.aside.events ≡ self.old.aside.events }
        ensures back { self.new.back.items ≡ self.old.back.items }
    {
        self.aside.reserve_for(done)?;
        self.back.reserve(done.sent_count())
    }
}

/// The receiver of the message, if it is a member, goes back to it. Its events that do not come before the message are undone, the newest
/// first, and their messages wait again. What they sent goes to `back`, the last first. The room for all of this was made before.
pub(crate) fn roll_back<R: Actor>(
    members: &mut [Option<R>],
    done: &mut DoneEvents<R::Record>,
    undoing: &mut Undoing<R::Record>,
    letters: &mut Letters,
    message: &Message,
)
    requires empty { undoing.old.aside.events ≡ [] }
    requires none_back { undoing.old.back.items ≡ [] }
    requires came { (p : ℕ) → CameTo (rules_of R.plain) R.is_value members.old done.old.events p }
    requires room { length done.old.events ≤ letters.old.room }
    requires space { HasRoomFor done.old.events undoing.old.aside }
    requires sends { vec_len undoing.old.back + sent_in done.old.events ≤ vec_capacity undoing.old.back }
    ensures rolled { RolledBack (rules_of R.plain) message.now
        (record { members = members.old; done = done.old.events; aside = []; queue = letters.old.queue; back = [] })
        (record { members = members.new; done = done.new.events; aside = []; queue = letters.new.queue; back = undoing.new.back.items }) }
    ensures came { (p : ℕ) → CameTo (rules_of R.plain) R.is_value members.new done.new.events p }
    ensures others { letters.new ≡ record letters.old { queue = letters.new.queue; room = letters.new.room } }
    ensures room { letters.old.room ≤ letters.new.room + length done.old.events }
    ensures empty { undoing.new.aside.events ≡ [] }
{
    actor_rules_law::<R>();
    set_back(members, done, undoing, letters, message);
    done.bring_back(&mut undoing.aside);
}

/// Undoes or sets aside the newest events that do not come before the message.
fn set_back<R: Actor>(
    members: &mut [Option<R>],
    done: &mut DoneEvents<R::Record>,
    undoing: &mut Undoing<R::Record>,
    letters: &mut Letters,
    message: &Message,
)
    requires empty { undoing.old.aside.events ≡ [] }
    requires none_back { undoing.old.back.items ≡ [] }
    requires came { CameTo (rules_of R.plain) R.is_value members.old done.old.events message.now.receiver }
    requires room { length done.old.events ≤ letters.old.room }
    requires space { HasRoomFor done.old.events undoing.old.aside }
    requires sends { vec_len undoing.old.back + sent_in done.old.events ≤ vec_capacity undoing.old.back }
    ensures rolled { RollsBack (rules_of R.plain) message.now
        (record { members = members.old; done = done.old.events; aside = []; queue = letters.old.queue; back = [] })
        (record { members = members.new; done = done.new.events; aside = undoing.new.aside.events; queue = letters.new.queue; back = undoing.new.back.items }) }
    ensures newest { is_after message_order (newest_of (messages_of done.new.events)) message.now ≡ true }
    ensures came { CameTo (rules_of R.plain) R.is_value members.new done.new.events message.now.receiver }
    ensures others { letters.new ≡ record letters.old { queue = letters.new.queue; room = letters.new.room } }
    ensures room { letters.old.room ≤ letters.new.room + length done.old.events }
    ensures again { HasRoomFor undoing.new.aside.events done.new }
{
    'events: while !done.is_before(message) {
        step_back(members, done, undoing, letters, message);
    }
}

/// Undoes the newest event, which does not come before the message, if it is one of the message's receiver, and otherwise sets it aside.
fn step_back<R: Actor>(
    members: &mut [Option<R>],
    done: &mut DoneEvents<R::Record>,
    undoing: &mut Undoing<R::Record>,
    letters: &mut Letters,
    message: &Message,
)
    requires late { is_after message_order (newest_of (messages_of done.old.events)) message.now ≡ false }
    requires came { CameTo (rules_of R.plain) R.is_value members.old done.old.events message.now.receiver }
    requires room { 0 < letters.old.room }
    requires space { HasRoomFor done.old.events undoing.old.aside }
    requires sends { vec_len undoing.old.back + sent_in done.old.events ≤ vec_capacity undoing.old.back }
    ensures rolls { (start : Retreat R R.Record) → RollsBack (rules_of R.plain) message.now start
        (record { members = members.old; done = done.old.events; aside = undoing.old.aside.events; queue = letters.old.queue; back = undoing.old.back.items }) →
        RollsBack (rules_of R.plain) message.now start
        (record { members = members.new; done = done.new.events; aside = undoing.new.aside.events; queue = letters.new.queue; back = undoing.new.back.items }) }
    ensures came { CameTo (rules_of R.plain) R.is_value members.new done.new.events message.now.receiver }
    ensures others { letters.new ≡ record letters.old { queue = letters.new.queue; room = letters.new.room } }
    ensures room { letters.old.room ≤ letters.new.room + 1 }
    ensures fewer { length done.new.events + 1 ≡ length done.old.events }
    ensures space { HasRoomFor done.new.events undoing.new.aside }
    ensures sends { vec_len undoing.new.back + sent_in done.new.events ≤ vec_capacity undoing.new.back }
    ensures again { HasRoomFor undoing.old.aside.events done.old → HasRoomFor undoing.new.aside.events done.new }
{
    actor_rules_law::<R>();
    if done.newest_is_for(message.receiver) {
        let event = done.pop_newest(&mut undoing.back);
        undo(members, &event.message, event.kept);
        letters.wait_again(&event.message);
    } else {
        done.move_newest(&mut undoing.aside);
    }
}
