//! The letters that were taken arrive, one after another.
ghost use Rattle.std.specs.Prelude.{◌≡◌, ◌+◌, ◌<◌, ◌≤◌, true, false, Ok, OnOk, OnErr, IfErr, IfSome, length, vec_len, vec_capacity};
ghost use Rattle.reverse.specs.Rules.{rules_of};
ghost use Rattle.group_queues.specs.Block.{AddsLetters};
ghost use Rattle.group_hand.specs.Hands.{DoesTold, IsAsBefore, IsQuiet};
ghost use Rattle.group_queues.specs.DoneEvents.{HasRoomFor, sent_in};
ghost use Rattle.group_hand.specs.declared.fault.HandFault.TheVariants.{OutOfMemory};

use crate::fault::HandFault;
use crate::hand::Hand;
use crate::rollback::Undoing;
use crate::settling::arrive;
use group_queues::{DoneEvents, Letters};
use reverse::{Actor, actor_rules_law};
use std::alloc::AllocError;

impl<R: Actor> Hand<R> {
    /// Whether no letter waits to arrive.
    #[inline(always)]
    fn is_quiet(&self) -> bool
        ensures { result ≡ true → IsQuiet self.now }
    {
        self.letters.is_quiet()
    }

    /// All letters that were taken arrive. What is thereby taken back within the group arrives too. A refusal stops between two letters.
    #[inline(always)]
    pub fn arrive_all(&mut self) -> Result<(), HandFault>
        ensures did { DoesTold (rules_of R.plain) R.is_value self.old self.new }
        ensures words { AddsLetters self.old.flow.words self.new.flow.words }
        ensures quiet { OnOk result (IsQuiet self.new) }
        ensures memory { IfErr result (λ fault. fault ≡ OutOfMemory) }
    {
        actor_rules_law::<R>();
        if self.is_quiet() {
            return Ok(());
        }
        'letters: while self.arrive_front()? {}
        self.sort_many();
        Ok(())
    }

    /// Sorts the messages that wait in no order, if they are many.
    fn sort_many(&mut self)
        ensures { IsAsBefore self.old self.new }
    {
        self.letters.sort_many();
    }

    /// The front letter of the tray arrives. Returns whether the tray had one. A refusal leaves all as it was.
    fn arrive_front(&mut self) -> Result<bool, HandFault>
        ensures did { DoesTold (rules_of R.plain) R.is_value self.old self.new }
        ensures words { AddsLetters self.old.flow.words self.new.flow.words }
        ensures quiet { result ≡ Ok false → IsQuiet self.new }
        ensures fewer { result ≡ Ok true → length self.new.flow.tray + sent_in self.new.done < length self.old.flow.tray + sent_in self.old.done }
        ensures unchanged { OnErr result (IsAsBefore self.old self.new) }
        ensures memory { IfErr result (λ fault. fault ≡ OutOfMemory) }
    {
        actor_rules_law::<R>();
        let Some(letter) = self.letters.front() else {
            return Ok(false);
        };
        let Ok(()) = make_room(&self.done, &mut self.undoing, &mut self.letters) else {
            return Err(HandFault::OutOfMemory);
        };
        match arrive(
            &mut self.members,
            &mut self.done,
            &mut self.undoing,
            &mut self.letters,
            &letter,
        ) {
            Ok(()) => Ok(true),
            Err(_fault) => Err(HandFault::OutOfMemory),
        }
    }
}

/// Makes room for all that results from a letter that arrives, whatever it undoes.
fn make_room<K: Copy>(
    done: &DoneEvents<K>,
    undoing: &mut Undoing<K>,
    letters: &mut Letters,
) -> Result<(), AllocError>
    ensures room { OnOk result (length done.now.events + sent_in done.now.events + 2 ≤ letters.new.room) }
    ensures space { OnOk result (HasRoomFor done.now.events undoing.new.aside) }
    ensures sends { OnOk result (vec_len undoing.new.back + sent_in done.now.events ≤ vec_capacity undoing.new.back) }
    ensures aside { undoing.new.aside.events ≡ undoing.old.aside.events }
    ensures back { undoing.new.back.items ≡ undoing.old.back.items }
    ensures letters { letters.new ≡ record letters.old { room = letters.new.room } }
{
    let Some(room) = room_for(done.len(), done.sent_count()) else {
        return Err(AllocError);
    };
    letters.reserve(room)?;
    undoing.reserve_for(done)
}

/// Returns for how many letters and words room is needed if `events` events, which sent `sent` messages, can be undone; none if the number
/// does not fit.
fn room_for(events: usize, sent: usize) -> Option<usize>
    ensures { IfSome result (λ n. n ≡ events + sent + 2) }
{
    events.checked_add(sent)?.checked_add(2)
}
