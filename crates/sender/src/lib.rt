//! A process as a sender: its number, the moment until which it sends, and the number of its next message.
#![tactic(auto)]

ghost use Rattle.std.specs.Prelude.{◌≡◌, ◌+◌, ◌-◌, ◌<◌, ◌≤◌, ◌↔◌, [], IsTrue};
ghost use Rattle.vlink.specs.declared.time.TheConstants.{GREATEST_NS};
ghost use Rattle.vlink.specs.Numbering.{greatest_number};
ghost use Rattle.reverse.specs.declared.sends.TheConstants.{MOST_SENT};

use reverse::{MOST_SENT, Outbound};
use std::marker::Model;
use vlink::Time;

/// A process as a sender: its number, the end of the run, and the number of its next message.
#[derive(Drop)]
pub struct Sender {
    number: u16,
    until: Time,
    counter: u64,
}

impl Model for Sender {
    ghost use Rattle.std.specs.Prelude.{◌<◌};
    ghost use Rattle.vlink.specs.declared.time.TheConstants.{GREATEST_NS};
    ghost use Rattle.reverse.specs.Sending.{Sender as SenderState};

    ghost Value = { SenderState };

    ghost view = { λ s. record { number = s.number; until = s.until; counter = s.counter } };

    ghost invariant = { λ s. s.until < GREATEST_NS };
}

impl Sender {
    /// Makes a process that has sent nothing yet.
    pub fn new(number: u16, until: Time) -> Self
        requires { until < GREATEST_NS }
        ensures { result ≡ record { number = number; until = until; counter = 0 } }
    {
        Sender {
            number,
            until,
            counter: 0,
        }
    }

    /// Returns the number of the process.
    #[inline(always)]
    pub fn number(&self) -> u16
        ensures { result ≡ self.now.number }
    {
        self.number
    }

    /// Returns the end of the run: later messages are left out.
    #[inline(always)]
    pub fn until(&self) -> Time
        ensures until { result ≡ self.now.until }
        ensures in_limits { result < GREATEST_NS }
    {
        self.until
    }

    /// Returns the number of the next message.
    #[inline(always)]
    pub fn counter(&self) -> u64
        ensures { result ≡ self.now.counter }
    {
        self.counter
    }

    /// Whether numbers are left for `MOST_SENT` messages.
    #[inline(always)]
    pub fn has_numbers(&self) -> bool
        ensures { IsTrue result ↔ (self.now.counter + MOST_SENT ≤ greatest_number) }
    {
        self.counter <= (1 << 62) - MOST_SENT as u64
    }

    /// Opens the room for what an event sends and notes, with nothing in it.
    #[inline(always)]
    pub fn open(&self, out: &mut Outbound)
        ensures sender { out.new.sender ≡ self.now }
        ensures messages { out.new.messages ≡ [] }
        ensures notes { out.new.notes ≡ [] }
    {
        out.open(self.number, self.until, self.counter);
    }

    /// Continues behind what an event has sent.
    #[inline(always)]
    pub fn go_on(&mut self, out: &Outbound)
        ensures { self.new ≡ record self.old { counter = out.now.sender.counter } }
    {
        self.counter = out.counter();
    }

    /// Undoes the last `sends` messages: the numbers go on where they stood before.
    #[inline(always)]
    pub fn take_back(&mut self, sends: u8)
        requires { sends ≤ self.old.counter }
        ensures { self.new ≡ record self.old { counter = self.old.counter - sends } }
    {
        self.counter -= u64::from(sends);
    }
}
