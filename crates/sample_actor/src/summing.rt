//! A small actor that sums moments, for rows of data.
ghost use Rattle.std.specs.Prelude.{◌≡◌, ◌<◌};
ghost use Rattle.vlink.specs.declared.time.TheConstants.{GREATEST_NS};

use reverse::{Actor, MOST_SENT, Reversible, Sends};
use vlink::{Body, GREATEST_NS, Message, Time};

/// Process 0: it adds the moment t of a message to a sum, and sends one message to process 1 for t + 5, unless that is after the end.
#[derive(Drop)]
pub struct Summing {
    /// The sum of the moments so far, modulo 2^64, in ns.
    pub sum: u64,
    /// The number of the next message sent.
    pub counter: u64,
    /// The end time of the run.
    pub until: Time,
    ghost in_limits: { until < GREATEST_NS },
}

/// The sum and the counter before an event.
#[derive(Clone, Copy)]
pub struct SumRecord {
    pub sum: u64,
    pub counter: u64,
}

impl Summing {
    /// Makes an actor that has summed up nothing and sent nothing.
    pub fn new(until: Time) -> Self
        requires { until < GREATEST_NS }
        ensures sum { result.sum ≡ 0 }
        ensures counter { result.counter ≡ 0 }
        ensures until { result.until ≡ until }
    {
        Summing {
            sum: 0,
            counter: 0,
            until,
        }
    }
}

impl Reversible for Summing {
    ghost use Rattle.std.specs.Prelude.{◌≡◌, ℕ, ◌+◌, ◌≤◌, ⊤};
    ghost use Rattle.reverse.specs.declared.sends.TheConstants.{MOST_SENT};
    ghost use Rattle.vlink.specs.Numbering.{greatest_number};
    ghost use Rattle.sample_actor.specs.Summing.{summing, sends};
    ghost use Rattle.std.proofs.Common.{refl, rules};

    type Event = Message;

    type Out = Sends;

    type Record = SumRecord;

    ghost plain = { summing };

    ghost is_value = { λ s e. ⊤ };

    ghost can_apply = { λ s. s.counter + MOST_SENT ≤ greatest_number };

    ghost undoes = { λ s e. refl };

    fn apply(&mut self, event: &Message) -> (Sends, SumRecord) {
        let kept = SumRecord {
            sum: self.sum,
            counter: self.counter,
        };
        let mut out = Sends::new();
        let later = Time::new(event.time.ns() + 5);
        if let Some(time) = later {
            if time <= self.until {
                out.messages.push(Message {
                    time,
                    receiver: 1,
                    sender: 0,
                    number: self.counter,
                    body: Body::PortFree { port: 0 },
                });
                self.counter += 1;
            }
        }
        self.sum = self.sum.wrapping_add(event.time.ns());
        (out, kept)
    }

    fn undo(&mut self, event: &Message, kept: SumRecord) {
        self.sum = kept.sum;
        self.counter = kept.counter;
    }
}

impl Actor for Summing {
    ghost use Rattle.std.specs.Prelude.{◌≡◌, ℕ, ◌+◌, ◌≤◌, ⊤};
    ghost use Rattle.std.proofs.Common.{refl, rules};
    ghost use Rattle.sample_actor.specs.Sending.{sends-own, sends-later, sends-timely, sends-numbered};

    ghost number = { λ s. 0 };

    ghost end = { λ s. s.until };

    ghost is_placed = { λ s. ⊤ };

    ghost numbers_suffice = { λ s h. h };

    ghost number_stays = { λ s e. refl };

    ghost end_stays = { λ s e. refl };

    ghost place_stays = { λ s e h. h };

    ghost own_sends = { sends-own };

    ghost later_sends = { λ s e h. sends-later s e };

    ghost timely_sends = { sends-timely };

    ghost numbered_sends = { sends-numbered };

    ghost counter_grows = { λ s e. refl };

    fn id(&self) -> u16 {
        0
    }

    fn until(&self) -> Time {
        self.until
    }

    fn has_numbers(&self) -> bool {
        self.counter <= (1 << 62) - MOST_SENT as u64
    }
}
