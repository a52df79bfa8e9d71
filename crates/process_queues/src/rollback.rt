//! Undoes what a process has done, the newest event first.
ghost use Rattle.std.specs.Prelude.{◌≡◌, ◌+◌, ◌≤◌, List, [], ◌∷◌, ◌++◌, length, map, reverse};
ghost use Rattle.vlink.specs.declared.message.Message.{Message};
ghost use Rattle.virtual_time.specs.Law.{reached, minus_of, Part, rolled_back, undo_all};
ghost use Rattle.reverse.specs.Rules.{rules_of};
ghost use Rattle.process_queues.specs.Past.{Rows, IsPastOf, LastDone, BelongsTo, sent_since};
ghost use Rattle.process_queues.specs.Queues.{AtEachPart};
ghost use Rattle.process_steps.specs.declared.event.Event.{Event};

use crate::past::Past;
use crate::process::Process;
use antimessages::Outbox;
use process_steps::{is_before, take_back, take_newest};
use reverse::{Actor, actor_rules_law};
use vlink::Message;

impl<R: Actor> Past<R> {
    /// Returns how many messages the done events sent that do not come before the message. Undoing these events gives as many antimessages.
    pub(crate) fn sent_since(&self, message: &Message) -> usize
        requires { (opening : R) × (there : Rows) × (part : Part Message R) × BelongsTo (rules_of R.plain) R.is_value opening there part self.now }
        ensures { result ≡ sent_since message.now (reverse self.now.done) }
    {
        let events = self.done.len();
        let _all = self.sends.len();
        let mut sent = 0;
        for undone in 0..events {
            let event = &self.done[events - 1 - undone];
            if is_before(&event.message, message) {
                return sent;
            }
            sent += usize::from(event.sent);
        }
        sent
    }

    /// Undoes every done event that does not come before the message, the newest first; what they sent goes to the outbox as antimessages,
    /// the last sent first. The outbox has room for them. Returns how many events were undone.
    pub(crate) fn roll_back(&mut self, message: &Message, outbox: &mut Outbox) -> u64
        requires some { (opening : R) × (there : Rows) × (part : Part Message R) × BelongsTo (rules_of R.plain) R.is_value opening there part self.old }
        requires room { sent_since message.now (reverse self.old.done) ≤ outbox.old.room }
        ensures rolled { (opening : R) (there : Rows) (part : Part Message R) → BelongsTo (rules_of R.plain) R.is_value opening there part self.old →
            BelongsTo (rules_of R.plain) R.is_value opening there (rolled_back (rules_of R.plain) opening message.now part) self.new }
        ensures posted { (opening : R) (there : Rows) (part : Part Message R) → BelongsTo (rules_of R.plain) R.is_value opening there part self.old →
            outbox.old.letters ≡ part.outbox → outbox.new.letters ≡ (rolled_back (rules_of R.plain) opening message.now part).outbox }
        ensures count { result + length self.new.done ≡ length self.old.done }
    {
        actor_rules_law::<R>();
        let events = self.done_len();
        while !self.is_before(message) {
            self.undo_newest(outbox);
        }
        (events - self.done_len()) as u64
    }

    /// Undoes all done events, the newest first, each by its record, and returns the actor. Sends nothing.
    pub(crate) fn undo_all(self) -> R
        requires { (start : R) × (ms : List Message) × (earlier : Rows) × IsPastOf (rules_of R.plain) R.is_value start ms earlier self }
        ensures { (start : R) (ms : List Message) (earlier : Rows) → IsPastOf (rules_of R.plain) R.is_value start ms earlier self → result ≡ start }
    {
        actor_rules_law::<R>();
        let Past {
            mut actor,
            mut done,
            ..
        } = self;
        while let Some(event) = done.pop_back() {
            actor.undo(&event.message, event.kept);
        }
        actor
    }

    /// Undoes the newest event, which must exist, by its record; what it sent goes to the outbox as antimessages, the last sent first. The
    /// outbox has room for it.
    pub(crate) fn undo_newest(&mut self, outbox: &mut Outbox)
        requires some { LastDone (rules_of R.plain) R.is_value self.old }
        requires room { (front : List (Event R.Record)) (event : Event R.Record) → self.old.done ≡ front ++ event ∷ [] → event.sent ≤ outbox.old.room }
        ensures undone { (start : R) (ms : List Message) (e : Message) (earlier : Rows) →
            IsPastOf (rules_of R.plain) R.is_value start (ms ++ e ∷ []) earlier self.old →
            IsPastOf (rules_of R.plain) R.is_value start ms earlier self.new }
        ensures sent { (start : R) (ms : List Message) (e : Message) (earlier : Rows) →
            IsPastOf (rules_of R.plain) R.is_value start (ms ++ e ∷ []) earlier self.old →
            outbox.new.letters ≡ outbox.old.letters ++ map minus_of (reverse ((rules_of R.plain).sends (reached (rules_of R.plain) start ms) e)) }
        ensures room { (front : List (Event R.Record)) (event : Event R.Record) → self.old.done ≡ front ++ event ∷ [] →
            (self.new.done ≡ front) × (outbox.old.room ≤ outbox.new.room + event.sent) }
        ensures fewer { length self.new.done + 1 ≡ length self.old.done }
    {
        actor_rules_law::<R>();
        let event = take_newest(&mut self.done);
        self.actor.undo(&event.message, event.kept);
        take_back(&mut self.sends, outbox, usize::from(event.sent));
        let rows = self.rows.len() - usize::from(event.noted);
        self.rows.truncate(rows);
    }
}

impl<R: Actor> Process<R> {
    /// Undoes all done events, the newest first, each by its record, and returns the actor. Sends nothing.
    pub fn undo_all(self) -> R
        ensures undone { AtEachPart (rules_of R.plain) R.is_value self.queues (λ opening part. result ≡ undo_all (rules_of R.plain) opening part) }
        ensures committed { AtEachPart (rules_of R.plain) R.is_value self.queues (λ opening part. result ≡ reached (rules_of R.plain) opening part.committed) }
    {
        let Process { past, .. } = self;
        past.undo_all()
    }
}
