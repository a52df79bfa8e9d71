//! What a group passes to the rest of the run: its block, the letters for others, and its floor.
ghost use Rattle.std.specs.Prelude.{◌≡◌, ◌⊎◌, ◌≤◌, ℕ, suc, [], true, Some, All, Contains, IfSome, IfNone};
ghost use Rattle.vlink.specs.declared.message.Message.{Message};
ghost use Rattle.vlink.specs.Order.{message_order};
ghost use Rattle.virtual_time.specs.Law.{World, in_hand, received_by};
ghost use Rattle.reverse.specs.Rules.{rules_of};
ghost use Rattle.reverse.specs.Setting.{Setting, simulation_of};
ghost use Rattle.group_queues.specs.Flow.{floor_in};
ghost use Rattle.group_hand.specs.Hands.{FirstWaits, IsAsBefore, StandsForGroup, is_ours};

use crate::hand::Hand;
use crate::members::is_ours;
use group_queues::Words;
use reverse::{Actor, actor_rules_law};
use std::alloc::Global;
use vlink::{Letter, Message, Time, order_law};

impl<R: Actor> Hand<R> {
    /// Whether the process is a member of the group.
    pub fn has(&self, process: u16) -> bool
        ensures { result ≡ is_ours self.now.members process }
    {
        is_ours(&self.members, process)
    }

    /// Returns the actors by their numbers; none if the process is elsewhere.
    pub fn members(&self) -> &[Option<R>]
        ensures { result.now ≡ self.now.members }
    {
        &self.members
    }

    /// Returns the words of the block: what was done since it began.
    pub fn block(&self) -> &Words
        ensures words { result.now.words ≡ self.now.flow.words }
        ensures keeps { result.now.keeps ≡ self.now.flow.keeps }
    {
        self.letters.block()
    }

    /// Ends the block and returns its words. The next block begins without words.
    pub fn next_block(&mut self, alloc: Global) -> Words
        ensures words { result.words ≡ self.old.flow.words }
        ensures keeps { result.keeps ≡ self.old.flow.keeps }
        ensures anew { self.new ≡ record self.old { flow = record self.old.flow { words = []; room = self.new.flow.room } } }
        ensures stands { (x : Setting R) (v : World Message R) → StandsForGroup (rules_of R.plain) R.is_value x v self.old → StandsForGroup (rules_of R.plain) R.is_value x v self.new }
    {
        actor_rules_law::<R>();
        self.letters.next_block(alloc)
    }

    /// Returns the letters that were posted for others, in order.
    pub fn letters_abroad(&self) -> &[Letter]
        ensures letters { result.now ≡ self.now.flow.abroad }
        ensures mail { (x : Setting R) (v : World Message R) → StandsForGroup (rules_of R.plain) R.is_value x v self.now → (q : ℕ) → v.mail q ≡ received_by message_order q result.now }
    {
        self.letters.letters_abroad()
    }

    /// Removes the letters for others, once they are in the mail of the run. Their room stays.
    pub fn clear_abroad(&mut self)
        ensures cleared { self.new ≡ record self.old { flow = record self.old.flow { abroad = []; room = self.new.flow.room } } }
        ensures stands { (x : Setting R) (v : World Message R) → StandsForGroup (rules_of R.plain) R.is_value x v self.old →
            StandsForGroup (rules_of R.plain) R.is_value x (in_hand (simulation_of (rules_of R.plain) x) v.gvt v) self.new }
    {
        actor_rules_law::<R>();
        self.letters.clear_abroad();
    }

    /// Returns the floor of the group, which is the least floor of its members: the least of the first message's time, of the times of the
    /// letters in the tray, and of `end`, the moment after the end of the run, in ns. It is exact if `count_done` was called before.
    pub fn floor(&mut self, end: Time) -> Time
        ensures same { IsAsBefore self.old self.new }
        ensures least { result ≡ floor_in message_order end self.old.flow }
        ensures bound { (x : Setting R) (v : World Message R) → end ≡ suc x.until → StandsForGroup (rules_of R.plain) R.is_value x v self.old →
            (p : ℕ) → is_ours self.old.members p ≡ true → result ≤ v.floors p }
        // if the first message of the queue exists and is not done, no lower bound is higher
        ensures reached { (x : Setting R) (v : World Message R) → end ≡ suc x.until → StandsForGroup (rules_of R.plain) R.is_value x v self.old →
            FirstWaits message_order self.old →
            (result ≡ end) ⊎ ((p : ℕ) × (is_ours self.old.members p ≡ true) × (v.floors p ≡ result)) }
    {
        actor_rules_law::<R>();
        self.letters.floor(end)
    }

    /// Returns the moment of the first message of the queue, if any.
    pub fn next_time(&mut self) -> Option<Time>
        ensures same { IsAsBefore self.old self.new }
        ensures among { IfSome result (λ t. (m : Message) × Contains self.old.flow.queue m × (m.time ≡ t)) }
        ensures least { IfSome result (λ t. All (λ m. t ≤ m.time) self.old.flow.queue) }
        ensures none { IfNone result (self.old.flow.queue ≡ []) }
    {
        order_law();
        let Some(message) = self.next() else {
            return None;
        };
        Some(message.time)
    }
}
