//! The newest of the done events of a group: which it is, and how it is removed or moved.
ghost use Rattle.std.specs.Prelude.{◌≡◌, ◌==◌, ◌≢◌, ◌+◌, ◌-◌, ◌<◌, ◌≤◌, List, [], ◌∷◌, ◌++◌, true, false, Some, All, Contains, length, take, drop, reverse, vec_len, vec_capacity, map, OnOk};
ghost use Rattle.std.specs.Option.{option_copied};
ghost use Rattle.vlink.specs.Order.{message_order};
ghost use Rattle.vlink.specs.declared.message.Message.{Message};
ghost use Rattle.virtual_time.specs.Law.{IsAscending};
ghost use Rattle.antimessages.specs.Counting.{newest_of};
ghost use Rattle.group_queues.specs.DoneEvents.{DoneEvent, messages_of, HasRoomFor, sent_in};

use crate::done_events::{DoneEvents, Event};
use crate::trail::Trail;
use std::alloc::AllocError;
use vlink::{Message, order_law};

impl<K: Copy> DoneEvents<K> {
    /// Returns the message of the newest event, if any.
    pub(crate) fn newest_message(&self) -> Option<&Message>
        ensures { option_copied result ≡ newest_of (messages_of self.now.events) }
    {
        match self.events.back() {
            Some(event) => Some(&event.message),
            None => None,
        }
    }

    /// Whether the newest event exists and is of this process.
    pub fn newest_is_for(&self, process: u16) -> bool
        ensures last { (front : List (DoneEvent K)) (d : DoneEvent K) → self.now.events ≡ front ++ d ∷ [] → result ≡ (d.message.receiver == process) }
        ensures newest { (m : Message) → newest_of (messages_of self.now.events) ≡ Some m → result ≡ (m.receiver == process) }
    {
        match self.newest_message() {
            Some(message) => message.receiver == process,
            None => false,
        }
    }

    /// Returns the number of events.
    pub fn len(&self) -> usize
        ensures { result ≡ length self.now.events }
    {
        self.events.len()
    }

    /// Returns how many messages they sent in all.
    pub fn sent_count(&self) -> usize
        ensures { result ≡ sent_in self.now.events }
    {
        self.sends.len()
    }

    /// Whether an event has this message. If the message comes after the newest one, this needs no search.
    pub fn has(&self, message: &Message) -> bool
        ensures yes { result ≡ true → Contains (messages_of self.now.events) message.now }
        ensures no { result ≡ false → IsAscending message_order (messages_of self.now.events) → All (λ x. x ≢ message.now) (messages_of self.now.events) }
    {
        order_law();
        !self.is_before(message) && is_among(&self.events, message)
    }

    /// Makes room for all events of the other list besides its own.
    pub fn reserve_for(&mut self, other: &DoneEvents<K>) -> Result<(), AllocError>
        ensures room { OnOk result (HasRoomFor other.now.events self.new) }
        ensures same { self.new.events ≡ self.old.events }
    {
        self.reserve_each(other.events.len(), other.sends.len(), other.rows.len())
    }

    /// Moves the newest event, which must exist, to the other list, as its newest. The other list has room for all that are here.
    pub fn move_newest(&mut self, other: &mut DoneEvents<K>)
        requires some { 0 < length self.old.events }
        requires room { HasRoomFor self.old.events other.old }
        ensures moved { (d : DoneEvent K) × (self.old.events ≡ self.new.events ++ d ∷ []) × (other.new.events ≡ other.old.events ++ d ∷ [])
            × ((ds : List (DoneEvent K)) → HasRoomFor ds self.old → HasRoomFor (d ∷ ds) self.new) }
        ensures room { HasRoomFor self.new.events other.new }
        ensures back { HasRoomFor other.old.events self.old → HasRoomFor other.new.events self.new }
    {
        let Some(event) = self.events.pop_back() else {
            unreachable!()
        };
        let sent = event.sent as usize;
        let noted = event.noted as usize;
        other.room = 0;
        other.events.push_back_reserved(event);
        move_last(&mut self.sends, sent, &mut other.sends);
        move_last(&mut self.rows, noted, &mut other.rows);
    }

    /// Makes the events of the other list, which were set aside, the newest again. The room for them was made before.
    pub fn bring_back(&mut self, aside: &mut DoneEvents<K>)
        requires { HasRoomFor aside.old.events self.old }
        ensures done { self.new.events ≡ self.old.events ++ reverse aside.old.events }
        ensures aside { aside.new.events ≡ [] }
    {
        'events: while 0 < aside.len() {
            aside.move_newest(self);
        }
    }

    /// Removes and returns the newest event, which must exist. What it sent goes to `back`, the last first, which has room for all that was
    /// sent.
    pub fn pop_newest(&mut self, back: &mut Vec<Message>) -> Event<K>
        requires some { 0 < length self.old.events }
        requires room { vec_len back.old + sent_in self.old.events ≤ vec_capacity back.old }
        ensures popped { (d : DoneEvent K) × (self.old.events ≡ self.new.events ++ d ∷ []) × (back.new.items ≡ back.old.items ++ reverse d.sent)
            × (result.message ≡ d.message) × (result.kept ≡ d.kept) }
        ensures room { vec_len back.new + sent_in self.new.events ≤ vec_capacity back.new }
        ensures space { (ds : List (DoneEvent K)) → HasRoomFor ds self.old → HasRoomFor ds self.new }
    {
        let Some(event) = self.events.pop_back() else {
            unreachable!()
        };
        let sent = event.sent as usize;
        let noted = event.noted as usize;
        take_back(&mut self.sends, sent, back);
        let left = self.rows.len() - noted;
        self.rows.truncate(left);
        event
    }
}

/// Whether one of these events has this message.
fn is_among<K: Copy>(events: &Trail<Event<K>>, message: &Message) -> bool
    ensures yes { result ≡ true → Contains (map (λ e. e.message) events.now.items) message.now }
    ensures no { result ≡ false → All (λ x. x ≢ message.now) (map (λ e. e.message) events.now.items) }
{
    for place in 0..events.len() {
        if is_same(&events.item(place).message, message) {
            return true;
        }
    }
    false
}

/// Whether the two messages are one.
fn is_same(first: &Message, second: &Message) -> bool
    ensures yes { result ≡ true → first.now ≡ second.now }
    ensures no { result ≡ false → first.now ≢ second.now }
{
    *first == *second
}

/// Moves the last `count` items to the end of `taken`, which has room for them. The type parameter is there for the borrow checker.
fn move_last<T: Copy + Drop>(items: &mut Trail<T>, count: usize, taken: &mut Trail<T>)
    requires enough { count ≤ length items.old.items }
    requires room { count ≤ taken.old.room }
    ensures items { items.new.items ≡ take (length items.old.items - count) items.old.items }
    ensures taken { taken.new.items ≡ taken.old.items ++ drop (length items.old.items - count) items.old.items }
    ensures items_capacity { items.new.room ≡ items.old.room + count }
    ensures taken_capacity { taken.new.room + count ≡ taken.old.room }
{
    let all = items.len();
    let first = all - count;
    for place in first..all {
        taken.push_back_reserved(*items.item(place));
    }
    items.truncate(first);
}

/// Moves the last `count` items to the end of `back`, the last first, which has room for them. The type parameter is there for the borrow
/// checker.
fn take_back<T: Copy + Drop>(sends: &mut Trail<T>, count: usize, back: &mut Vec<T>)
    requires enough { count ≤ length sends.old.items }
    requires room { vec_len back.old + count ≤ vec_capacity back.old }
    ensures sends { sends.new.items ≡ take (length sends.old.items - count) sends.old.items }
    ensures back { back.new.items ≡ back.old.items ++ reverse (drop (length sends.old.items - count) sends.old.items) }
    ensures sends_capacity { sends.new.room ≡ sends.old.room + count }
    ensures capacity { vec_capacity back.new ≡ vec_capacity back.old }
{
    let all = sends.len();
    for taken in 0..count {
        back.push_reserved(*sends.item(all - 1 - taken));
    }
    sends.truncate(all - count);
}
