//! The messages that a group has to handle: sent ones in two lists, and beside them the offers.
ghost use Rattle.std.specs.Prelude.{◌≡◌, ◌≢◌, ◌+◌, ◌<◌, ◌≤◌, [], ◌∷◌, ◌++◌, true, false, All, Contains, OnOk, IfOk, IfSome, IfNone, IsPermutation};
ghost use Rattle.std.specs.List.Sorted.{IsSortedBy};
ghost use Rattle.std.proofs.Props.{props};
ghost use Rattle.vlink.specs.declared.message.Message.{Message};
ghost use Rattle.reverse.specs.Rules.{is_before};
ghost use Rattle.group_queues.specs.Waiting.{placed};

use std::alloc::{AllocError, Global};
use std::marker::Model;
use two_lists::{TwoLists, sort, take_out};
use vlink::{Message, message_order_law, order_law};

/// The number of unsorted messages that are sorted at one go.
const MANY: usize = 1024;

/// The messages that a group has to handle. All offers are known from the start and are sorted once; an offer that is undone goes to the
/// lists.
///
/// Clauses see it as the list of all, in message order, in which a message can occur several times, and the room for more.
#[derive(Drop)]
pub(crate) struct Queue {
    lists: TwoLists,
    /// The first of them is at the end.
    offers: Vec<Message>,
    ghost falling: { IsSortedBy (λ x y. is_before y x) offers.items } by { Prim.hlevel props },
}

impl Model for Queue {
    ghost use Rattle.std.specs.Prelude.{◌++◌};
    ghost use Rattle.two_lists.specs.Listing.{Listing};
    ghost use Rattle.group_queues.specs.Waiting.{ordered};

    ghost Value = { Listing };

    ghost view = { λ q. record { messages = ordered (q.lists.messages ++ q.offers.items); room = q.lists.room } };
}

impl Queue {
    /// Makes a queue of these offers.
    pub(crate) fn of_offers(alloc: Global, offers: Vec<Message>) -> Result<Self, AllocError>
        ensures { IfOk result (λ queue. IsPermutation offers.items queue.messages) }
    {
        let mut offers = offers;
        sort(&mut offers);
        Ok(Queue {
            lists: TwoLists::empty(alloc)?,
            offers,
        })
    }

    /// Returns the first message, if any.
    #[inline(always)]
    pub(crate) fn first(&mut self) -> Option<Message>
        ensures same { self.new.messages ≡ self.old.messages }
        ensures room { self.old.room ≤ self.new.room }
        ensures among { IfSome result (Contains self.old.messages) }
        ensures first { IfSome result (λ m. All (λ x. is_before x m ≡ false) self.old.messages) }
        ensures none { IfNone result (self.old.messages ≡ []) }
    {
        message_order_law();
        order_law();
        let last = self.offers.last();
        let Some(message) = self.lists.first_before(last) else {
            return last.copied();
        };
        Some(message)
    }

    /// Removes and returns the first message, if any.
    #[inline(always)]
    pub(crate) fn pop(&mut self) -> Option<Message>
        ensures one { IfSome result (λ m. self.old.messages ≡ m ∷ self.new.messages) }
        ensures first { IfSome result (λ m. All (λ x. is_before x m ≡ false) self.old.messages) }
        ensures none { IfNone result (self.old.messages ≡ []) }
        ensures empty { IfNone result (self.new.messages ≡ []) }
        ensures room { self.old.room ≤ self.new.room }
    {
        message_order_law();
        order_law();
        let Some(message) = self.lists.pop_before(self.offers.last()) else {
            return self.offers.pop();
        };
        Some(message)
    }

    /// Removes the first message, which is this one.
    #[inline(always)]
    pub(crate) fn take_first(&mut self, message: &Message)
        requires among { Contains self.old.messages message.now }
        requires first { All (λ x. is_before x message.now ≡ false) self.old.messages }
        ensures taken { IsPermutation self.old.messages (message.now ∷ self.new.messages) }
        ensures room { self.old.room ≤ self.new.room }
    {
        order_law();
        let _first = self.pop();
    }

    /// If many messages wait in no order, and no offers are left, sorts them at one go, and stores them in place of the offers.
    pub(crate) fn sort_many(&mut self)
        ensures { self.new.messages ≡ self.old.messages }
    {
        order_law();
        if !self.offers.is_empty() {
            return;
        }
        let Some(far) = self.lists.take_far(MANY) else {
            return;
        };
        self.offers = sort_down(far);
    }

    /// Makes room for `more` messages: as long as no other call comes between, this many calls of `push_reserved` have room.
    #[inline(always)]
    pub(crate) fn reserve(&mut self, more: usize) -> Result<(), AllocError>
        ensures room { OnOk result (more ≤ self.new.room) }
        ensures same { self.new.messages ≡ self.old.messages }
    {
        self.lists.reserve(more)?;
        Ok(())
    }

    /// Adds one message. The room for it was made before.
    #[inline(always)]
    pub(crate) fn push_reserved(&mut self, message: &Message)
        requires { 0 < self.old.room }
        ensures more { IsPermutation (message.now ∷ self.old.messages) self.new.messages }
        ensures placed { self.new.messages ≡ placed message.now self.old.messages }
        ensures room { self.old.room ≤ self.new.room + 1 }
    {
        order_law();
        self.lists.push_reserved(message);
    }

    /// Removes the message, once, wherever it is: it is rare. Returns whether it was there.
    pub(crate) fn remove(&mut self, message: &Message) -> bool
        ensures one { result ≡ true → IsPermutation self.old.messages (message.now ∷ self.new.messages) }
        ensures none { result ≡ false → All (λ x. x ≢ message.now) self.old.messages }
        ensures unchanged { result ≡ false → self.new.messages ≡ self.old.messages }
        ensures room { self.old.room ≤ self.new.room }
    {
        if self.lists.remove(message) {
            return true;
        }
        take_out(&mut self.offers, message)
    }
}

/// Sorts the messages, the first of them at the end.
fn sort_down(messages: Vec<Message>) -> Vec<Message>
    ensures falling { IsSortedBy (λ x y. is_before y x) result.items }
    ensures same { IsPermutation messages.items result.items }
{
    let mut messages = messages;
    sort(&mut messages);
    messages
}
