//! Commits events, the oldest first: how many it can commit, room for them, and one after another.
ghost use Rattle.std.specs.Prelude.{◌≡◌, ◌+◌, ◌<◌, ◌≤◌, false, true, map, take, Ok, OnOk, OnErr, IfOk, IfErr};
ghost use Rattle.virtual_time.specs.Law.{IsAscending, can_commit, commit_oldest};
ghost use Rattle.reverse.specs.Rules.{rules_of};
ghost use Rattle.vlink.specs.Order.{message_order};
ghost use Rattle.process_queues.specs.declared.fault.ProcFault.TheVariants.{OutOfMemory};
ghost use Rattle.process_queues.specs.Committing.{committable};
ghost use Rattle.process_queues.specs.Queues.{AtEachPart, Does, with_done};

use crate::fault::ProcFault;
use crate::process::Process;
use antimessages::Tally;
use process_steps::{Event, counts_once, is_committable};
use reverse::{Actor, actor_rules_law};
use std::collections::VecDeque;
use vlink::{Time, order_law};

impl<R: Actor> Process<R> {
    /// Returns how many of the done events, the oldest first and `most` at most, come before the first one that is not earlier than the
    /// moment, in ns, or whose signed count is not 1. That many can be committed one after another. Takes no memory.
    pub fn committable(&self, moment: Time, most: usize) -> usize
        ensures within { result ≤ most }
        ensures stands { AtEachPart (rules_of R.plain) R.is_value self.now.queues
            (λ opening part. result ≡ committable message_order moment part.tally (take most part.done)) }
    {
        actor_rules_law::<R>();
        committable_of(&self.tally, moment, self.past.done_events(), most)
    }

    /// Makes sure that `events` more committed events can be counted; the count goes to 2^64 - 1. As long as no other call comes between,
    /// this many calls of `seal_oldest` then succeed. Takes no memory.
    pub fn reserve_rows(&mut self, events: usize) -> Result<(), ProcFault>
        ensures room { OnOk result (events ≤ self.new.committed_room) }
        ensures same { self.new.queues ≡ self.old.queues }
        ensures tray_room { self.new.room ≡ self.old.room }
        ensures reserved { OnErr result (self.old.committed_room < events) }
        ensures memory { IfErr result (λ fault. fault ≡ OutOfMemory) }
    {
        if u64::MAX - self.committed < events as u64 {
            return Err(ProcFault::OutOfMemory);
        }
        Ok(())
    }

    /// Commits the oldest done event if its signed count is 1: it leaves the done events and the counts, and its rows are sealed. Returns
    /// whether such an event existed. If `reserve_rows` made sure of it, this succeeds. Takes no memory.
    pub fn seal_oldest(&mut self) -> Result<bool, ProcFault>
        ensures sealed { OnOk result (Does (rules_of R.plain) R.is_value (λ opening. commit_oldest (rules_of R.plain)) self.old.queues self.new.queues) }
        ensures answer { IfOk result (λ done. AtEachPart (rules_of R.plain) R.is_value self.old.queues
            (λ opening part. done ≡ can_commit message_order part part.done)) }
        ensures tray { self.new.queues.tray ≡ self.old.queues.tray }
        ensures left { self.new.queues.left ≡ self.old.queues.left }
        ensures outbox { self.new.queues.outbox ≡ self.old.queues.outbox }
        ensures room { self.old.committed_room ≤ self.new.committed_room + 1 }
        ensures unchanged { OnErr result (self.new.queues ≡ self.old.queues) }
        ensures idle { result ≡ Ok false → self.new.queues ≡ self.old.queues }
        ensures refused { OnErr result (AtEachPart (rules_of R.plain) R.is_value self.old.queues (λ opening part. can_commit message_order part part.done ≡ true)) }
        ensures reserved { OnErr result (self.old.committed_room ≡ 0) }
        ensures memory { IfErr result (λ fault. fault ≡ OutOfMemory) }
    {
        actor_rules_law::<R>();
        if !self.can_seal() {
            return Ok(false);
        }
        if self.committed == u64::MAX {
            return Err(ProcFault::OutOfMemory);
        }
        let _rows = self.past.rows().len();
        let noted = self.past.forget_oldest();
        self.sealed += usize::from(noted);
        self.committed += 1;
        Ok(true)
    }

    /// Whether a done event exists and the signed count of the oldest one is 1.
    fn can_seal(&self) -> bool
        ensures { AtEachPart (rules_of R.plain) R.is_value self.now.queues (λ opening part. result ≡ can_commit message_order part part.done) }
    {
        actor_rules_law::<R>();
        match self.past.oldest() {
            Some(event) => counts_once(&self.tally, &event.message),
            None => false,
        }
    }
}

/// Returns how many of these done events, `most` at most, come before the first one that cannot be committed. The tally does not contain
/// them.
fn committable_of<K: Copy>(
    tally: &Tally,
    moment: Time,
    events: &VecDeque<Event<K>>,
    most: usize,
) -> usize
    requires { IsAscending message_order (map (λ e. e.message) events.now.items) }
    ensures { result ≡ committable message_order moment (with_done tally.now events.now.items) (take most (map (λ e. e.message) events.now.items)) }
{
    order_law();
    let limit = most.min(events.len());
    for place in 0..limit {
        if !is_committable(tally, moment, &events[place].message) {
            return place;
        }
    }
    limit
}
