//! Messages at the front of the queue that are already done move to the tally.
ghost use Rattle.std.specs.Prelude.{◌≡◌, ◌<◌, true, false, Ok, Some, OnOk, IfErr, length};
ghost use Rattle.vlink.specs.declared.message.Message.{Message};
ghost use Rattle.vlink.specs.Order.{message_order};
ghost use Rattle.virtual_time.specs.Law.{World, IsAscending};
ghost use Rattle.reverse.specs.Rules.{rules_of};
ghost use Rattle.reverse.specs.Setting.{Setting};
ghost use Rattle.group_queues.specs.DoneEvents.{messages_of};
ghost use Rattle.group_hand.specs.Hands.{FirstWaits, StandsForGroup};
ghost use Rattle.group_hand.specs.declared.fault.HandFault.TheVariants.{OutOfMemory};

use crate::fault::HandFault;
use crate::hand::Hand;
use reverse::{Actor, actor_rules_law};

impl<R: Actor> Hand<R> {
    /// Moves messages at the front of the queue that are already done to the tally, until the first one is not done: then `floor` is exact.
    /// No word joins the block. A refusal stops between two messages.
    pub fn count_done(&mut self) -> Result<(), HandFault>
        ensures stands { (x : Setting R) (v : World Message R) → StandsForGroup (rules_of R.plain) R.is_value x v self.old → StandsForGroup (rules_of R.plain) R.is_value x v self.new }
        ensures others { self.new ≡ record self.old { flow = record self.old.flow { queue = self.new.flow.queue; extra = self.new.flow.extra; room = self.new.flow.room } } }
        ensures waits { OnOk result (IsAscending message_order (messages_of self.new.done) → FirstWaits message_order self.new) }
        ensures memory { IfErr result (λ fault. fault ≡ OutOfMemory) }
    {
        'messages: while self.count_first_done()? {}
        Ok(())
    }

    /// Moves the first message of the queue to the tally, if it is already done. Returns whether it was. A refusal leaves all as it was.
    fn count_first_done(&mut self) -> Result<bool, HandFault>
        ensures stands { (x : Setting R) (v : World Message R) → StandsForGroup (rules_of R.plain) R.is_value x v self.old → StandsForGroup (rules_of R.plain) R.is_value x v self.new }
        ensures others { self.new ≡ record self.old { flow = record self.old.flow { queue = self.new.flow.queue; extra = self.new.flow.extra; room = self.new.flow.room } } }
        ensures waits { result ≡ Ok false → IsAscending message_order (messages_of self.new.done) → FirstWaits message_order self.new }
        ensures fewer { result ≡ Ok true → length self.new.flow.queue < length self.old.flow.queue }
        ensures memory { IfErr result (λ fault. fault ≡ OutOfMemory) }
    {
        actor_rules_law::<R>();
        let Some(message) = self.letters.first() else {
            return Ok(false);
        };
        if !self.done.has(&message) {
            return Ok(false);
        }
        match self.letters.count_again(&message) {
            Ok(()) => Ok(true),
            Err(_fault) => Err(HandFault::OutOfMemory),
        }
    }
}
