//! The done events of a group.
ghost use Rattle.std.specs.Prelude.{option_map, slice_get, ◌≡◌, true, List, ◌+◌, ◌<◌, ◌≤◌, [], ◌∷◌, ◌++◌, length, OnOk};
ghost use Rattle.vlink.specs.Order.{message_order};
ghost use Rattle.virtual_time.specs.Law.{rows_of};
ghost use Rattle.antimessages.specs.Counting.{newest_of, is_after};
ghost use Rattle.group_queues.specs.DoneEvents.{DoneEvent, messages_of, HasRoomFor};
ghost use Rattle.reverse.specs.declared.sends.TheConstants.{MOST_SENT};

use crate::trail::Trail;
use reverse::MOST_SENT;
use std::alloc::{AllocError, Global};
use std::marker::Model;
use vlink::{Message, Note, Row, Time, compare, message_order_law, order_law};

/// The number of events for which room is made at a time.
const AHEAD: usize = 64;

/// The most rows that one event gives.
const MOST_ROWS: usize = 2;

/// The stored data of a done event: its message, how many messages it sent, how many rows it gave, and the record by which it is undone.
///
/// The fields lie in an order that leaves no gaps between them: then the record is copied at one go.
#[derive(Clone, Copy)]
pub struct Event<K: Copy> {
    pub message: Message,
    pub sent: u32,
    pub noted: u32,
    pub kept: K,
}

/// Done events, the oldest at the front; all that they sent, and all rows that they gave, in the same order.
///
/// Clauses see each event with what it sent and its rows, and the room for more events, messages and rows.
#[derive(Drop)]
pub struct DoneEvents<K: Copy> {
    pub(crate) events: Trail<Event<K>>,
    pub(crate) sends: Trail<Message>,
    pub(crate) rows: Trail<Row>,
    /// The number of events for which each of these lists has room at least, whatever the events send and note: so one comparison suffices.
    pub(crate) room: usize,
}

impl<K: Copy> Model for DoneEvents<K> {
    ghost use Rattle.std.specs.Prelude.{◌≡◌, ◌≤◌, ◌*◌, length};
    ghost use Rattle.group_queues.specs.DoneEvents.{Done, done_events_in, all_sent, all_noted};
    ghost use Rattle.reverse.specs.declared.sends.TheConstants.{MOST_SENT};

    ghost Value = { Done K };

    ghost view = { λ d. record {
      events = done_events_in d.events.items d.sends.items d.rows.items;
      events_room = d.events.room;
      sends_room = d.sends.room;
      rows_room = d.rows.room;
    } };

    ghost invariant = { λ d. (length d.sends.items ≡ all_sent d.events.items) × (length d.rows.items ≡ all_noted d.events.items)
        × (d.room ≤ d.events.room) × (MOST_SENT * d.room ≤ d.sends.room) × (2 * d.room ≤ d.rows.room) };
}

impl<K: Copy> DoneEvents<K> {
    /// Makes an empty list.
    pub fn new(alloc: Global) -> Self
        ensures { result.events ≡ [] }
    {
        DoneEvents {
            events: Trail::new(alloc),
            sends: Trail::new(alloc),
            rows: Trail::new(alloc),
            room: 0,
        }
    }

    /// Makes room for one more event, whatever it sends and notes. Mostly it exists.
    #[inline(always)]
    pub fn reserve(&mut self) -> Result<(), AllocError>
        ensures events { OnOk result (1 ≤ self.new.events_room) }
        ensures sends { OnOk result (MOST_SENT ≤ self.new.sends_room) }
        ensures rows { OnOk result (2 ≤ self.new.rows_room) }
        ensures same { self.new.events ≡ self.old.events }
    {
        if 0 < self.room {
            return Ok(());
        }
        self.grow()
    }

    /// Makes room for more events, whatever they send and note.
    #[inline(never)]
    fn grow(&mut self) -> Result<(), AllocError>
        ensures events { OnOk result (1 ≤ self.new.events_room) }
        ensures sends { OnOk result (MOST_SENT ≤ self.new.sends_room) }
        ensures rows { OnOk result (2 ≤ self.new.rows_room) }
        ensures same { self.new.events ≡ self.old.events }
    {
        self.reserve_each(AHEAD, MOST_SENT * AHEAD, MOST_ROWS * AHEAD)?;
        self.room = AHEAD;
        Ok(())
    }

    /// Makes room for these numbers of events, of messages that they send, and of rows.
    pub(crate) fn reserve_each(
        &mut self,
        events: usize,
        sends: usize,
        rows: usize,
    ) -> Result<(), AllocError>
        ensures room { OnOk result ((events ≤ self.new.events_room) × (sends ≤ self.new.sends_room) × (rows ≤ self.new.rows_room)) }
        ensures same { self.new.events ≡ self.old.events }
    {
        self.room = 0;
        self.events.reserve(events)?;
        self.sends.reserve(sends)?;
        self.rows.reserve(rows)
    }

    /// Adds one event, the newest. The room for it was made before.
    #[inline(always)]
    pub fn push_reserved(&mut self, message: &Message, kept: K, sends: &[Message], notes: &[Note])
        requires events { 1 ≤ self.old.events_room }
        requires sends { (length sends.now ≤ MOST_SENT) × (length sends.now ≤ self.old.sends_room) }
        requires rows { (length notes.now ≤ 2) × (length notes.now ≤ self.old.rows_room) }
        ensures events { self.new.events ≡ self.old.events ++ record { message = message.now; kept = kept; sent = sends.now; rows = rows_of message_order message.now notes.now } ∷ [] }
        ensures left { (ds : List (DoneEvent K)) → HasRoomFor (record { message = message.now; kept = kept; sent = sends.now; rows = rows_of message_order message.now notes.now } ∷ ds) self.old → HasRoomFor ds self.new }
    {
        self.events.push_back_reserved(Event {
            message: *message,
            sent: sends.len() as u32,
            noted: notes.len() as u32,
            kept,
        });
        send_all(&mut self.sends, sends);
        note_all(&mut self.rows, message, notes);
        self.room = self.room.saturating_sub(1);
    }

    /// Moves what is left to the front, if it is no more than what has left.
    pub(crate) fn close_up(&mut self)
        ensures { self.new.events ≡ self.old.events }
    {
        self.events.close_up();
        self.sends.close_up();
        self.rows.close_up();
    }

    /// Returns the moment of the oldest event, in ns, if any.
    pub fn oldest_time(&self) -> Option<Time>
        ensures { result ≡ option_map (λ m. m.time) (slice_get (messages_of self.now.events) 0) }
    {
        match self.events.front() {
            Some(event) => Some(event.message.time),
            None => None,
        }
    }

    /// Whether the message comes after the newest event, or no event is here.
    #[inline(always)]
    pub fn is_before(&self, message: &Message) -> bool
        ensures { result ≡ is_after message_order (newest_of (messages_of self.now.events)) message.now }
    {
        match self.events.back() {
            Some(event) => precedes(&event.message, message),
            None => true,
        }
    }
}

/// Whether the first message comes before the second. Mostly their moments decide, or their receivers.
#[inline(always)]
pub(crate) fn precedes(first: &Message, second: &Message) -> bool
    ensures { result ≡ message_order.less first.now second.now }
{
    message_order_law();
    order_law();
    if first.time < second.time {
        return true;
    }
    if first.time.ns() == second.time.ns() && first.receiver < second.receiver {
        return true;
    }
    compare(first, second).is_lt()
}

/// Puts the messages behind those that were sent. The room for them was made before.
#[inline(always)]
fn send_all(sends: &mut Trail<Message>, messages: &[Message])
    requires room { length messages.now ≤ sends.old.room }
    ensures sends { sends.new.items ≡ sends.old.items ++ messages.now }
    ensures capacity { sends.new.room + length messages.now ≡ sends.old.room }
{
    for message in messages {
        sends.push_back_reserved(*message);
    }
}

/// Puts the notes of the message's event behind the rows. The room for them was made before.
#[inline(always)]
fn note_all(rows: &mut Trail<Row>, message: &Message, notes: &[Note])
    requires { length notes.now ≤ rows.old.room }
    ensures rows { rows.new.items ≡ rows.old.items ++ rows_of message_order message.now notes.now }
    ensures capacity { rows.new.room + length notes.now ≡ rows.old.room }
{
    for note in notes {
        rows.push_back_reserved(Row {
            message: *message,
            place: message.receiver,
            note: *note,
        });
    }
}
