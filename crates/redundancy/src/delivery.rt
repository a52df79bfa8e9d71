//! Redundancy management of one virtual link at one receiver.
ghost use Rattle.std.specs.Prelude.{◌≡◌, ◌≤◌, ◌↔◌, None, IsSome, IfSome};
ghost use Rattle.redundancy.specs.Redundancy.{is_delivered};

use reverse::Reversible;
use std::marker::Model;
use vlink::{Time, steps};

/// The greatest skew that can be set for a virtual link, in ns (profile).
pub const GREATEST_SKEW_NS: u64 = 1_000_000_000;

/// A frame of the virtual link, from either network, that passed the integrity check of its network.
#[derive(Clone, Copy)]
pub struct Received {
    /// Its sequence number.
    pub number: u8,
    /// When it arrived.
    pub at: Time,
}

/// What becomes of a frame.
#[derive(Clone, Copy, Debug)]
pub enum Delivery {
    Delivered,
    Duplicate,
}

/// Redundancy management of one virtual link at a receiver: the first valid copy of a frame wins (ARINC 664 Part 7).
///
/// A frame is delivered if none was delivered before; or if it arrives more than the greatest skew after the last one delivered; or if its
/// number is new, which means 1 to 127 steps after that one's and not 0 (profile). Any other frame is a duplicate, and leaves the state as
/// it was.
///
/// Clauses see it as the greatest skew in ns, and the number and moment of the last frame delivered, or none.
#[derive(Clone, Copy)]
pub struct Redundancy {
    skew_max_ns: u64,
    last: Option<(u8, Time)>,
}

impl Model for Redundancy {
    ghost use Rattle.std.specs.Prelude.{◌≤◌};
    ghost use Rattle.redundancy.specs.Redundancy.{Receiver};
    ghost use Rattle.redundancy.specs.declared.delivery.TheConstants.{GREATEST_SKEW_NS};

    ghost Value = { Receiver };

    ghost view = { λ r. record { skew_max = r.skew_max_ns; last = r.last } };

    ghost invariant = { λ r. r.skew_max_ns ≤ GREATEST_SKEW_NS };

    ghost inverse = { λ r. record { skew_max_ns = r.skew_max; last = r.last } };
}

impl Redundancy {
    /// The state before any frame is delivered, or `None` if the skew is beyond the greatest.
    pub fn new(skew_max_ns: u64) -> Option<Self>
        ensures within { IsSome result ↔ (skew_max_ns ≤ GREATEST_SKEW_NS) }
        ensures skew { IfSome result (λ r. r.skew_max ≡ skew_max_ns) }
        ensures none_delivered { IfSome result (λ r. r.last ≡ None) }
    {
        if skew_max_ns <= GREATEST_SKEW_NS {
            Some(Redundancy {
                skew_max_ns,
                last: None,
            })
        } else {
            None
        }
    }

    /// Returns the number and the moment of the last frame delivered.
    pub fn last(self) -> Option<(u8, Time)>
        ensures { result ≡ self.last }
    {
        self.last
    }

    /// Undoes a frame, by its record.
    pub fn take_back(&mut self, kept: Option<(u8, Time)>)
        ensures { self.new ≡ record self.old { last = kept } }
    {
        self.last = kept;
    }

    /// Whether the frame is delivered now.
    fn delivers(self, frame: Received) -> bool
        ensures { result ≡ is_delivered self frame }
    {
        match self.last {
            None => true,
            Some((number, moment)) => {
                let skew = frame.at.ns().saturating_sub(moment.ns());
                let ahead = steps(number, frame.number);
                skew > self.skew_max_ns || (frame.number != 0 && 1 <= ahead && ahead <= 127)
            }
        }
    }
}

impl Reversible for Redundancy {
    ghost use Rattle.std.specs.Prelude.{⊤, refl};
    ghost use Rattle.redundancy.specs.Redundancy.{redundancy};

    type Event = Received;

    type Out = Delivery;

    type Record = Option<(u8, Time)>;

    ghost plain = { redundancy };

    ghost is_value = { λ _ _. ⊤ };

    ghost can_apply = { λ _. ⊤ };

    ghost undoes = { λ receiver frame. refl };

    #[inline(always)]
    fn apply(&mut self, event: &Received) -> (Delivery, Option<(u8, Time)>) {
        let Received { number, at } = *event;
        let kept = self.last;
        if self.delivers(*event) {
            self.last = Some((number, at));
            (Delivery::Delivered, kept)
        } else {
            (Delivery::Duplicate, kept)
        }
    }

    fn undo(&mut self, _event: &Received, kept: Option<(u8, Time)>) {
        self.take_back(kept);
    }
}
