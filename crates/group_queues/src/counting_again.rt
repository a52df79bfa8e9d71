//! Moves the first message of the queue to the tally, if it is already done.
ghost use Rattle.std.specs.Prelude.{◌≡◌, ◌∷◌, false, All, Contains, OnOk, OnErr, IsPermutation};
ghost use Rattle.vlink.specs.declared.message.Message.{Message};
ghost use Rattle.vlink.specs.Order.{message_order};
ghost use Rattle.virtual_time.specs.Law.{plus_of};
ghost use Rattle.reverse.specs.Rules.{is_before};
ghost use Rattle.antimessages.specs.Counting.{HaveSameCounts};

use crate::letters::Letters;
use antimessages::OutOfMemory;
use vlink::{Letter, Message, Sign, order_law};

impl Letters {
    /// Moves the first message of the queue, which is this one and already done, to the tally. A refusal changes nothing.
    pub fn count_again(&mut self, message: &Message) -> Result<(), OutOfMemory>
        requires among { Contains self.old.queue message.now }
        requires first { All (λ x. is_before x message.now ≡ false) self.old.queue }
        ensures queue { OnOk result (IsPermutation self.old.queue (message.now ∷ self.new.queue)) }
        ensures extra { OnOk result (HaveSameCounts message_order self.new.extra (plus_of message.now ∷ self.old.extra)) }
        ensures others { OnOk result (self.new ≡ record self.old { queue = self.new.queue; extra = self.new.extra; room = self.new.room }) }
        ensures unchanged { OnErr result (self.new ≡ self.old) }
    {
        order_law();
        self.extra.add(Letter {
            message: *message,
            sign: Sign::Plus,
        })?;
        self.queue.take_first(message);
        Ok(())
    }
}
