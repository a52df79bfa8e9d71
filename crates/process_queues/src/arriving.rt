//! A letter arrives: it is tallied, and if it comes late the process rolls back.
ghost use Rattle.std.specs.Prelude.{map, ◌≡◌, ◌≢◌, ◌+◌, ◌≤◌, [], ◌∷◌, ◌++◌, true, false, drop, length, slice_get, Some, IsTrue, MatchOption, OnOk, OnErr, IfOk, IfErr};
ghost use Rattle.vlink.specs.declared.message.Message.{Message};
ghost use Rattle.virtual_time.specs.Law.{IsIn, IsAscending, plus_of, pluses, minuses, Part, arrive, rolled_back, undone_by};
ghost use Rattle.reverse.specs.Rules.{rules_of};
ghost use Rattle.vlink.specs.Order.{message_order};
ghost use Rattle.antimessages.specs.Counting.{HaveSameCounts, change_by, is_after, newest_of};
ghost use Rattle.antimessages.specs.declared.tally.Change.TheVariants.{Same};
ghost use Rattle.process_queues.specs.declared.fault.ProcFault.TheVariants.{OutOfMemory};
ghost use Rattle.process_queues.specs.Past.{Rows, BelongsTo};
ghost use Rattle.process_queues.specs.Arriving.{Arrives, done_since};
ghost use Rattle.process_queues.specs.Queues.{AtEachPart, Does};

use crate::fault::ProcFault;
use crate::past::Past;
use crate::process::Process;
use antimessages::{Outbox, Tally};
use process_steps::{is_change, pop_front, tally_front};
use reverse::{Actor, actor_rules_law};
use std::collections::VecDeque;
use vlink::Letter;

impl<R: Actor> Process<R> {
    /// Tallies the front letter of the tray. If its message thereby becomes present or absent, undoes every done event that does not come
    /// before it, the newest first; what these events sent goes to the outbox as antimessages, the last sent first. Returns how many events
    /// that undid, or none if the tray is empty.
    pub fn arrive(&mut self) -> Result<Option<u64>, ProcFault>
        ensures arrived { OnOk result (Does (rules_of R.plain) R.is_value (arrive (rules_of R.plain)) self.old.queues self.new.queues) }
        ensures answer { IfOk result (λ undone. AtEachPart (rules_of R.plain) R.is_value self.old.queues
            (λ opening part. MatchOption undone (part.tray ≡ []) (λ count. (part.tray ≢ []) × (count ≡ undone_by message_order part part.tray)))) }
        ensures tray { OnOk result (self.new.queues.tray ≡ drop 1 self.old.queues.tray) }
        ensures left { self.new.queues.left ≡ self.old.queues.left }
        ensures refused { OnErr result (self.old.queues.tray ≢ []) }
        ensures unchanged { OnErr result (self.new.queues ≡ self.old.queues) }
        ensures memory { IfErr result (λ fault. fault ≡ OutOfMemory) }
    {
        let Some(letter) = front_of(&self.tray) else {
            return Ok(None);
        };
        let undone = self.arrive_first(letter)?;
        Ok(Some(undone))
    }

    /// The front letter of the tray arrives. Returns how many events that undid. A refusal changes nothing.
    fn arrive_first(&mut self, letter: Letter) -> Result<u64, antimessages::OutOfMemory>
        requires { slice_get self.old.queues.tray 0 ≡ Some letter }
        ensures arrived { IfOk result (λ undone. Arrives (rules_of R.plain) R.is_value undone self.old.queues self.new.queues) }
        ensures unchanged { OnErr result (self.new.queues ≡ self.old.queues) }
    {
        if self.past.is_before(&letter.message) {
            self.arrive_ahead(letter)
        } else if self.is_toggled(&letter) {
            self.arrive_late(letter)
        } else {
            self.arrive_still(letter)
        }
    }

    /// Does what `arrive_first` does, for a letter that comes after all done events.
    fn arrive_ahead(&mut self, letter: Letter) -> Result<u64, antimessages::OutOfMemory>
        requires first { slice_get self.old.queues.tray 0 ≡ Some letter }
        requires ahead { is_after message_order (newest_of (map (λ e. e.message) self.old.queues.past.done)) letter.message ≡ true }
        ensures arrived { IfOk result (λ undone. Arrives (rules_of R.plain) R.is_value undone self.old.queues self.new.queues) }
        ensures unchanged { OnErr result (self.new.queues ≡ self.old.queues) }
    {
        actor_rules_law::<R>();
        let change = tally_front(&mut self.tally, &mut self.tray, letter)?;
        self.next = self
            .tally
            .next_with(self.next, &letter, change, self.past.newest());
        Ok(0)
    }

    /// Does what `arrive_first` does, for a letter whose message stays present or stays absent.
    fn arrive_still(&mut self, letter: Letter) -> Result<u64, antimessages::OutOfMemory>
        requires first { slice_get self.old.queues.tray 0 ≡ Some letter }
        requires same { change_by message_order letter self.old.queues.tally ≡ Same }
        ensures arrived { IfOk result (λ undone. Arrives (rules_of R.plain) R.is_value undone self.old.queues self.new.queues) }
        ensures unchanged { OnErr result (self.new.queues ≡ self.old.queues) }
    {
        actor_rules_law::<R>();
        tally_front(&mut self.tally, &mut self.tray, letter)?;
        Ok(0)
    }

    /// Does what `arrive_first` does, for a letter that makes its message present or absent: the process rolls back.
    fn arrive_late(&mut self, letter: Letter) -> Result<u64, antimessages::OutOfMemory>
        requires first { slice_get self.old.queues.tray 0 ≡ Some letter }
        requires toggled { change_by message_order letter self.old.queues.tally ≢ Same }
        ensures arrived { IfOk result (λ undone. Arrives (rules_of R.plain) R.is_value undone self.old.queues self.new.queues) }
        ensures unchanged { OnErr result (self.new.queues ≡ self.old.queues) }
    {
        actor_rules_law::<R>();
        let undone = undo_since(&mut self.past, &mut self.tally, &mut self.outbox, letter)?;
        pop_front(&mut self.tray);
        self.next = self.tally.next_after(self.past.newest());
        Ok(undone)
    }

    /// Whether the letter makes its message present or absent. The message does not come after all done events, and such a message is
    /// present just if it is done.
    fn is_toggled(&self, letter: &Letter) -> bool
        requires { is_after message_order (newest_of (map (λ e. e.message) self.now.queues.past.done)) letter.now.message ≡ false }
        ensures toggled { IsTrue result → change_by message_order letter.now self.now.queues.tally ≢ Same }
        ensures same { result ≡ false → change_by message_order letter.now self.now.queues.tally ≡ Same }
    {
        actor_rules_law::<R>();
        is_change(&self.tally, letter, self.past.has_done(&letter.message))
    }
}

/// Undoes the done events that do not come before the letter's message, the newest first; what they sent goes to the outbox as
/// antimessages, the last sent first. Tallies their messages and the letter. Returns how many events were undone. A refusal changes
/// nothing.
fn undo_since<R: Actor>(
    past: &mut Past<R>,
    tally: &mut Tally,
    outbox: &mut Outbox,
    letter: Letter,
) -> Result<u64, antimessages::OutOfMemory>
    requires some { (opening : R) × (there : Rows) × (part : Part Message R) × BelongsTo (rules_of R.plain) R.is_value opening there part past.old }
    requires ascending { IsAscending message_order (map (λ e. e.message) past.old.done) }
    requires not_owed { (m : Message) → IsIn message_order m (map (λ e. e.message) past.old.done) → minuses message_order m tally.old ≤ pluses message_order m tally.old }
    ensures rolled { OnOk result ((opening : R) (there : Rows) (part : Part Message R) → BelongsTo (rules_of R.plain) R.is_value opening there part past.old →
        BelongsTo (rules_of R.plain) R.is_value opening there (rolled_back (rules_of R.plain) opening letter.message part) past.new) }
    ensures posted { OnOk result ((opening : R) (there : Rows) (part : Part Message R) → BelongsTo (rules_of R.plain) R.is_value opening there part past.old →
        outbox.old.letters ≡ part.outbox → outbox.new.letters ≡ (rolled_back (rules_of R.plain) opening letter.message part).outbox) }
    ensures counts { OnOk result (HaveSameCounts message_order tally.new (letter ∷ (map (λ e. plus_of e.message) (done_since letter.message past.old.done) ++ tally.old))) }
    ensures count { IfOk result (λ undone. undone + length past.new.done ≡ length past.old.done) }
    ensures unchanged { OnErr result (past.new ≡ past.old) }
    ensures tally_unchanged { OnErr result (tally.new ≡ tally.old) }
    ensures outbox_unchanged { OnErr result (outbox.new.letters ≡ outbox.old.letters) }
{
    outbox.reserve(past.sent_since(&letter.message))?;
    past.count_again(tally, letter)?;
    Ok(past.roll_back(&letter.message, outbox))
}

/// Returns the front letter of the tray, or none if the tray is empty.
fn front_of(tray: &VecDeque<Letter>) -> Option<Letter>
    ensures { result ≡ slice_get tray.now.items 0 }
{
    tray.front().copied()
}
