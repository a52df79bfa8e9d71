//! A message for a heap. A heap returns its greatest element first, so the earlier message is the greater one.
#![tactic(auto)]

ghost use Rattle.std.specs.Prelude.{◌≡◌};
ghost use Rattle.std.proofs.Common.{◌∙◌};
ghost use Rattle.std.specs.Cmp.{back_po, back_total};
ghost use Rattle.vlink.specs.declared.message.Message.{Message};
ghost use Rattle.vlink.specs.contracts.message.MessagePartialEq.TheImpl.Laws as message_eq;
ghost use Rattle.vlink.specs.contracts.message.MessageEq.TheImpl.Laws as message_equiv;
ghost use Rattle.vlink.specs.contracts.message.MessagePartialOrd.TheImpl.Laws as message_partial;
ghost use Rattle.vlink.specs.contracts.message.MessageOrd.TheImpl.Laws as message_total;

use std::cmp::Ordering;
use std::marker::Model;
use vlink::{Message, compare};

/// A message, ordered opposite to the order of messages.
///
/// Clauses see it as the message.
#[derive(Drop)]
pub struct HeapMessage {
    message: Message,
}

impl Model for HeapMessage {
    ghost use Rattle.vlink.specs.declared.message.Message.{Message};

    ghost Value = { Message };

    ghost view = { λ s. s.message };
}

impl HeapMessage {
    /// Makes the element of a message.
    #[inline(always)]
    pub fn new(message: &Message) -> Self
        ensures { result ≡ message.now }
    {
        HeapMessage { message: *message }
    }

    /// Returns the message.
    #[inline(always)]
    pub fn message(&self) -> &Message
        ensures { result.now ≡ self.now }
    {
        &self.message
    }
}

impl PartialEq for HeapMessage {
    ghost eq = { λ x y. ⟦<Message as PartialEq>⟧.eq x y };

    ghost laws = { message_eq.laws-law };

    fn eq(&self, other: &Self) -> bool {
        self.message == other.message
    }
}

impl Eq for HeapMessage {
    ghost laws = { message_equiv.laws-law };
}

impl PartialOrd for HeapMessage {
    ghost partial_cmp = { λ x y. ⟦<Message as PartialOrd>⟧.partial_cmp y x };

    ghost laws = { back_po message_eq.laws-law message_partial.laws-law };

    fn partial_cmp(&self, other: &Self) -> Option<Ordering> {
        other.message.partial_cmp(&self.message)
    }
}

impl Ord for HeapMessage {
    ghost cmp = { λ x y. ⟦<Message as Ord>⟧.cmp y x };

    ghost total = { back_total message_total.total-law };

    ghost matches_partial_cmp = { λ x y. message_total.matches_partial_cmp-law y x };

    ghost matches_eq = { λ x y. message_eq.laws-law.symm x y ∙ message_total.matches_eq-law y x };

    #[inline(always)]
    fn cmp(&self, other: &Self) -> Ordering {
        compare(&other.message, &self.message)
    }
}
