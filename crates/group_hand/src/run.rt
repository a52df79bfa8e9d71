//! Handles the first message of a group.
ghost use Rattle.std.specs.Prelude.{◌≡◌, ◌≤◌, ◌+◌, Contains, OnOk};
ghost use Rattle.vlink.specs.declared.message.Message.{Message};
ghost use Rattle.reverse.specs.Rules.{rules_of};
ghost use Rattle.reverse.specs.declared.sends.TheConstants.{MOST_SENT};
ghost use Rattle.group_hand.specs.Answered.{RunsInOrder, RunsNext, RunsOutOfOrder};
ghost use Rattle.group_hand.specs.Hands.{DoesTold};
ghost use Rattle.group_queues.specs.DoneEvents.{HasRoomFor};

use crate::fault::HandFault;
use crate::hand::Hand;
use crate::in_order::{InOrder, handle_in_order, in_order_of};
use crate::members::has_numbers;
use crate::out_of_order::handle_out_of_order;
use group_queues::{DoneEvents, Letters};
use reverse::{Actor, MOST_SENT, actor_rules_law};
use std::alloc::AllocError;
use vlink::Time;

/// The most letters, and words beside the first, that one event gives.
const MOST_LETTERS: usize = MOST_SENT + 1;

impl<R: Actor> Hand<R> {
    /// Handles the first message of all members, if it is earlier than the limit and comes after all that the group has done. What it sends
    /// to members is taken: it joins the queue, or waits in the tray if a letter must arrive before it or the tally counts its message.
    /// What it sends to others joins the letters abroad.
    ///
    /// `Exhausted`: its receiver, if it is a member, does not have enough numbers left for what one event can send. `OutOfMemory`: memory
    /// was refused. Either leaves all as it was.
    pub fn run_in_order(&mut self, limit: Time) -> Result<InOrder, HandFault>
        ensures did { DoesTold (rules_of R.plain) R.is_value self.old self.new }
        ensures told { RunsInOrder (λ s. R.plain.counter s) limit self.old self.new result }
    {
        actor_rules_law::<R>();
        let Ok(()) = make_room(&mut self.done, &mut self.letters) else {
            return Err(HandFault::OutOfMemory);
        };
        let Some(message) = self.letters.pop() else {
            return Ok(InOrder::Idle);
        };
        let outcome = in_order_of(&self.members, &self.done, &message, limit);
        match outcome {
            Ok(InOrder::Ran) => {
                handle_in_order(
                    &mut self.members,
                    &mut self.done,
                    &mut self.letters,
                    &mut self.out,
                    &message,
                );
                Ok(InOrder::Ran)
            }
            _ => {
                self.letters.wait_again(&message);
                outcome
            }
        }
    }

    /// Handles the first message of all members, if it is earlier than the limit, whether other members have done later events or not. If
    /// it is already done, moves it to the tally instead. What it sends to members is taken: it joins the queue, or waits in the tray.
    /// Returns whether there was such a message. Letters that wait in the tray must arrive before.
    ///
    /// `Exhausted`: the message is not done, and its receiver, if it is a member, does not have enough numbers left for what one event can
    /// send. `OutOfMemory`: memory was refused. Either leaves all as it was.
    pub fn run_next(&mut self, limit: Time) -> Result<bool, HandFault>
        ensures did { DoesTold (rules_of R.plain) R.is_value self.old self.new }
        ensures told { RunsNext (rules_of R.plain) R.is_value (λ s. R.plain.counter s) limit self.old self.new result }
    {
        actor_rules_law::<R>();
        match self.run_in_order(limit)? {
            InOrder::Ran => Ok(true),
            InOrder::Idle => Ok(false),
            InOrder::Late => {
                self.run_out_of_order()?;
                Ok(true)
            }
        }
    }

    /// The receiver of the first message of the queue, which must exist, handles it, although other members have done later events. If it
    /// is already done, it moves to the tally instead. What it sends to members waits in the tray.
    ///
    /// `Exhausted`: the message is not done, and its receiver, if it is a member, does not have enough numbers left for what one event can
    /// send. `OutOfMemory`: memory was refused. Either leaves all as it was.
    pub(crate) fn run_out_of_order(&mut self) -> Result<(), HandFault>
        requires { (m : Message) × Contains self.old.flow.queue m }
        ensures did { DoesTold (rules_of R.plain) R.is_value self.old self.new }
        ensures told { RunsOutOfOrder (rules_of R.plain) R.is_value (λ s. R.plain.counter s) self.old self.new result }
    {
        actor_rules_law::<R>();
        let Some(message) = self.letters.first() else {
            unreachable!()
        };
        if self.done.has(&message) {
            return match self.letters.count_again(&message) {
                Ok(()) => Ok(()),
                Err(_fault) => Err(HandFault::OutOfMemory),
            };
        }
        if !has_numbers(&self.members, message.receiver) {
            return Err(HandFault::Exhausted);
        }
        let Ok(()) = make_late_room(&mut self.done, &mut self.undoing.aside, &mut self.letters)
        else {
            return Err(HandFault::OutOfMemory);
        };
        handle_out_of_order(
            &mut self.members,
            &mut self.done,
            &mut self.undoing.aside,
            &mut self.letters,
            &mut self.out,
            &message,
        );
        Ok(())
    }
}

/// Makes room for all that one event gives.
#[inline(always)]
fn make_room<K: Copy>(done: &mut DoneEvents<K>, letters: &mut Letters) -> Result<(), AllocError>
    ensures room { OnOk result (MOST_SENT + 1 ≤ letters.new.room) }
    ensures events { OnOk result (1 ≤ done.new.events_room) }
    ensures sends { OnOk result (MOST_SENT ≤ done.new.sends_room) }
    ensures rows { OnOk result (2 ≤ done.new.rows_room) }
    ensures done { done.new.events ≡ done.old.events }
    ensures letters { letters.new ≡ record letters.old { room = letters.new.room } }
{
    letters.reserve(MOST_LETTERS)?;
    done.reserve()
}

/// Makes room for all that one event gives, and for setting all done events aside.
fn make_late_room<K: Copy>(
    done: &mut DoneEvents<K>,
    aside: &mut DoneEvents<K>,
    letters: &mut Letters,
) -> Result<(), AllocError>
    ensures room { OnOk result (MOST_SENT + 1 ≤ letters.new.room) }
    ensures events { OnOk result (1 ≤ done.new.events_room) }
    ensures sends { OnOk result (MOST_SENT ≤ done.new.sends_room) }
    ensures rows { OnOk result (2 ≤ done.new.rows_room) }
    ensures space { OnOk result (HasRoomFor done.new.events aside.new) }
    ensures done { done.new.events ≡ done.old.events }
    ensures aside { aside.new.events ≡ aside.old.events }
    ensures letters { letters.new ≡ record letters.old { room = letters.new.room } }
{
    make_room(done, letters)?;
    aside.reserve_for(done)
}
