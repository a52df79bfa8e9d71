//! What one event sends and notes while it is handled, in a room that later events use again.
ghost use Rattle.std.specs.Prelude.{◌≡◌, ◌+◌, ◌<◌, ◌≤◌, ◌^◌, [], ◌∷◌, ◌++◌, length};
ghost use Rattle.vlink.specs.Numbering.{greatest_number};
ghost use Rattle.reverse.specs.Sending.{loss, replied};
ghost use Rattle.reverse.specs.declared.sends.TheConstants.{MOST_SENT};

use crate::sends::Sends;
use std::marker::Model;
use vlink::{Body, Cause, Frame, Message, Note, Time};

/// What one event makes a process send and note. The next event uses it again. So no event copies or clears the room for all that one event
/// can send.
///
/// Clauses see the sender, with the number of its next message, and the messages and notes so far.
#[derive(Drop)]
pub struct Outbound {
    number: u16,
    until: Time,
    counter: u64,
    sends: Sends,
}

impl Model for Outbound {
    ghost use Rattle.reverse.specs.Sending.{OutboundState};

    ghost Value = { OutboundState };

    ghost view = { λ o. record {
      sender = record { number = o.number; until = o.until; counter = o.counter };
      messages = o.sends.messages.items;
      notes = o.sends.notes.items;
    } };
}

impl Outbound {
    /// An empty room for the process with this number, whose next message has the number `counter`.
    pub fn new(number: u16, until: Time, counter: u64) -> Self
        ensures sender { result.sender ≡ record { number = number; until = until; counter = counter } }
        ensures messages { result.messages ≡ [] }
        ensures notes { result.notes ≡ [] }
    {
        Outbound {
            number,
            until,
            counter,
            sends: Sends::new(),
        }
    }

    /// Discards what was sent and noted, for an event of the process with this number, whose next message has the number `counter`.
    pub fn open(&mut self, number: u16, until: Time, counter: u64)
        ensures sender { self.new.sender ≡ record { number = number; until = until; counter = counter } }
        ensures messages { self.new.messages ≡ [] }
        ensures notes { self.new.notes ≡ [] }
    {
        self.number = number;
        self.until = until;
        self.counter = counter;
        self.sends.messages.clear();
        self.sends.notes.clear();
    }

    /// Stores these sends and notes in place of its previous contents.
    pub fn hold(&mut self, sends: Sends)
        ensures sender { self.new.sender ≡ self.old.sender }
        ensures messages { self.new.messages ≡ sends.messages.items }
        ensures notes { self.new.notes ≡ sends.notes.items }
    {
        self.sends = sends;
    }

    /// Returns the number of the process.
    pub fn number(&self) -> u16
        ensures { result ≡ self.now.sender.number }
    {
        self.number
    }

    /// Returns the number of the next message.
    pub fn counter(&self) -> u64
        ensures { result ≡ self.now.sender.counter }
    {
        self.counter
    }

    /// Returns the messages sent, in the order of their numbers.
    pub fn messages(&self) -> &[Message]
        ensures messages { result.now ≡ self.now.messages }
        ensures few { length result.now ≤ MOST_SENT }
    {
        self.sends.messages.as_slice()
    }

    /// Returns the notes, in their order.
    pub fn notes(&self) -> &[Note]
        ensures notes { result.now ≡ self.now.notes }
        ensures few { length result.now ≤ 2 }
    {
        self.sends.notes.as_slice()
    }

    /// Sends a message for the moment `ns`, unless that is after the end of the run.
    #[inline(always)]
    pub fn send(&mut self, ns: u64, receiver: u16, body: Body)
        requires room { length self.old.messages < MOST_SENT }
        requires numbers { self.old.sender.counter < greatest_number }
        ensures { self.new ≡ replied self.old (record { wishes = record { time = ns; receiver = receiver; body = body } ∷ []; notes = [] }) }
    {
        if let Some(time) = Time::until(ns, self.until) {
            self.put(time, receiver, body);
        }
    }

    /// Sends two messages, of which the second is not before the first: mostly one comparison with the end of the run serves both. A
    /// message after the end is left out.
    #[inline(always)]
    pub fn send_both(
        &mut self,
        first_ns: u64,
        first_receiver: u16,
        first: Body,
        second_ns: u64,
        second_receiver: u16,
        second: Body,
    )
        requires room { length self.old.messages + 2 ≤ MOST_SENT }
        requires numbers { self.old.sender.counter + 2 ≤ greatest_number }
        requires order { first_ns ≤ second_ns }
        ensures { self.new ≡ replied self.old (record {
          wishes = record { time = first_ns; receiver = first_receiver; body = first }
              ∷ record { time = second_ns; receiver = second_receiver; body = second }
              ∷ [];
          notes = [];
        }) }
    {
        let Some(second_time) = Time::until(second_ns, self.until) else {
            return self.send(first_ns, first_receiver, first);
        };
        let _ns = second_time.ns();
        self.put(Time::of_known(first_ns), first_receiver, first);
        self.put(second_time, second_receiver, second);
    }

    /// Sends a message for a moment that is not after the end of the run.
    #[inline(always)]
    fn put(&mut self, time: Time, receiver: u16, body: Body)
        requires room { length self.old.messages < MOST_SENT }
        requires numbers { self.old.sender.counter < greatest_number }
        requires in_time { time ≤ self.old.sender.until }
        ensures { self.new ≡ replied self.old (record { wishes = record { time = time; receiver = receiver; body = body } ∷ []; notes = [] }) }
    {
        self.sends.messages.push(Message {
            time,
            receiver,
            sender: u32::from(self.number),
            number: self.counter,
            body,
        });
        self.counter += 1;
    }

    /// Notes what became of a frame.
    pub fn note(&mut self, note: Note)
        requires { length self.old.notes < 2 }
        ensures { self.new ≡ replied self.old (record { wishes = []; notes = note ∷ [] }) }
    {
        self.sends.notes.push(note);
    }

    /// Notes that a frame is lost for this cause.
    pub fn lose(&mut self, cause: Cause, frame: &Frame)
        requires { length self.old.notes < 2 }
        ensures { self.new ≡ replied self.old (loss cause frame.now) }
    {
        self.note(Note::Dropped {
            vl: frame.vl,
            cause,
            size: frame.size,
        });
    }

    /// Returns all that was sent and noted.
    pub fn close(self) -> Sends
        ensures messages { result.messages.items ≡ self.messages }
        ensures notes { result.notes.items ≡ self.notes }
    {
        self.sends
    }
}
