//! A small actor that passes messages on to several processes, for scripts on a group.
ghost use Rattle.std.specs.Prelude.{◌≡◌, ◌<◌};
ghost use Rattle.vlink.specs.declared.time.TheConstants.{GREATEST_NS};

use crate::passing_on::pass_on;
use reverse::{Actor, MOST_SENT, Reversible, Sends};
use vlink::{GREATEST_NS, Message, Note, Time, VlId};

/// Process `number`: it adds the moment t of a message to a sum, notes it, and passes it on twice, for t + 5 and for t + 7, unless that is
/// after the end. A message for the moment t goes to process t modulo 5.
#[derive(Drop)]
pub struct Passing {
    pub number: u16,
    /// The sum of the moments so far, modulo 2^64, in ns.
    pub sum: u64,
    /// The number of the next message sent.
    pub counter: u64,
    /// The end time of the run.
    pub until: Time,
    ghost in_limits: { until < GREATEST_NS },
}

/// The sum and the counter before an event.
#[derive(Clone, Copy)]
pub struct PassRecord {
    pub sum: u64,
    pub counter: u64,
}

impl Passing {
    /// Makes an actor that has summed up nothing and sent nothing.
    pub fn new(number: u16, until: Time) -> Self
        requires { until < GREATEST_NS }
        ensures number { result.number ≡ number }
        ensures sum { result.sum ≡ 0 }
        ensures counter { result.counter ≡ 0 }
        ensures until { result.until ≡ until }
    {
        Passing {
            number,
            sum: 0,
            counter: 0,
            until,
        }
    }
}

impl Reversible for Passing {
    ghost use Rattle.std.specs.Prelude.{◌≡◌, ℕ, ◌+◌, ◌≤◌, ⊤};
    ghost use Rattle.reverse.specs.declared.sends.TheConstants.{MOST_SENT};
    ghost use Rattle.vlink.specs.Numbering.{greatest_number};
    ghost use Rattle.sample_actor.specs.Passing.{passing};
    ghost use Rattle.std.proofs.Common.{refl, rules};

    type Event = Message;

    type Out = Sends;

    type Record = PassRecord;

    ghost plain = { passing };

    ghost is_value = { λ s e. ⊤ };

    ghost can_apply = { λ s. s.counter + MOST_SENT ≤ greatest_number };

    ghost undoes = { λ s e. refl };

    fn apply(&mut self, event: &Message) -> (Sends, PassRecord) {
        let kept = PassRecord {
            sum: self.sum,
            counter: self.counter,
        };
        let ns = event.time.ns();
        let mut out = Sends::new();
        pass_on(self, &mut out, ns + 5);
        pass_on(self, &mut out, ns + 7);
        out.notes.push(Note::Delivered {
            vl: VlId(0),
            latency: ns,
        });
        self.sum = self.sum.wrapping_add(ns);
        (out, kept)
    }

    fn undo(&mut self, event: &Message, kept: PassRecord) {
        self.sum = kept.sum;
        self.counter = kept.counter;
    }
}

impl Actor for Passing {
    ghost use Rattle.std.specs.Prelude.{◌≡◌, ℕ, ◌+◌, ◌≤◌, ⊤};
    ghost use Rattle.std.proofs.Common.{refl, rules};
    ghost use Rattle.sample_actor.specs.PassingOn.{passes-own, passes-later, passes-timely, passes-numbered};

    ghost number = { λ s. s.number };

    ghost end = { λ s. s.until };

    ghost is_placed = { λ s. ⊤ };

    ghost numbers_suffice = { λ s h. h };

    ghost number_stays = { λ s e. refl };

    ghost end_stays = { λ s e. refl };

    ghost place_stays = { λ s e h. h };

    ghost own_sends = { passes-own };

    ghost later_sends = { λ s e h. passes-later s e };

    ghost timely_sends = { passes-timely };

    ghost numbered_sends = { passes-numbered };

    ghost counter_grows = { λ s e. refl };

    fn id(&self) -> u16 {
        self.number
    }

    fn until(&self) -> Time {
        self.until
    }

    fn has_numbers(&self) -> bool {
        self.counter <= (1 << 62) - MOST_SENT as u64
    }
}
