//! A virtual link at its source, and what follows from an event of its regulator.
ghost use Rattle.std.specs.Prelude.{◌≡◌, ◌+◌, ◌<◌, ◌≤◌, [], length};
ghost use Rattle.vlink.specs.Numbering.{greatest_number};
ghost use Rattle.bag_regulator.specs.Regulator.{regulator as plain, IsRegulator};
ghost use Rattle.reverse.specs.Sending.{joined, replied};
ghost use Rattle.nodes.specs.rules.EndSystem.{asked, full, lost, released_kept, released_out, released_reply, source_number};
ghost use Rattle.reverse.specs.declared.sends.TheConstants.{MOST_SENT};

use crate::change::Change;
use crate::copies::release;
use crate::finding::Numbered;
use crate::ports::Ports;
use crate::vl_end::VlEnd;
use bag_regulator::{BagRegulator, RegAnswer, RegEvent};
use reverse::{Outbound, Reversible};
use vlink::{Body, Cause, Time, VlId};

/// A virtual link at the end system that is its source.
#[derive(Drop)]
pub struct Source {
    pub end: VlEnd,
    pub regulator: BagRegulator,
}

impl Numbered for Source {
    ghost number = { source_number };

    fn number(&self) -> u16 {
        self.end.vl.0
    }
}

impl Source {
    /// Passes an event to the regulator. A frame that finds its queue full is lost, the Release for which the regulator asks is sent, and
    /// copies of the frame that it releases go out. The virtual link stands at this place of those that the end system sends.
    pub fn regulate(
        &mut self,
        at: Time,
        event: &RegEvent,
        place: u16,
        ports: &mut Ports,
        out: &mut Outbound,
    ) -> Change
        requires messages { out.old.messages ≡ [] }
        requires notes { out.old.notes ≡ [] }
        requires numbers { out.old.sender.counter + MOST_SENT ≤ greatest_number }
        ensures state { self.new ≡ record self.old { regulator = plain.after self.old.regulator event.now } }
        ensures ports { ports.new ≡ released_out self.old.end (plain.out self.old.regulator event.now).answer ports.old }
        ensures reply { let told = plain.out self.old.regulator event.now in
            out.new ≡ replied out.old (joined (joined (full event.now told.answer) (asked out.old.sender.number self.old.end.vl told.release_at))
            (released_reply out.old.sender.number at self.old.end told.answer ports.old)) }
        ensures change { result ≡ Change.Source place (released_kept self.old.end (plain.out self.old.regulator event.now).answer ports.old) (plain.saves self.old.regulator event.now) }
        ensures valid { IsRegulator self.old.regulator }
    {
        let (told, kept) = self.regulator.apply(event);
        lose_if_full(event, told.answer, out);
        ask(self.end.vl, told.release_at, out);
        Change::Source {
            place,
            copies: release(at, &self.end, told.answer, ports, out),
            kept,
        }
    }
}

/// Notes that an offered frame is lost for this cause.
pub fn lose_offered(cause: Cause, event: &RegEvent, out: &mut Outbound)
    requires { length out.old.notes < 2 }
    ensures { out.new ≡ replied out.old (lost cause event.now) }
{
    if let RegEvent::Offer { frame, .. } = *event {
        out.lose(cause, &frame);
    }
}

/// Notes that a frame is lost, if it finds the queue full.
fn lose_if_full(event: &RegEvent, answer: RegAnswer, out: &mut Outbound)
    requires { length out.old.notes < 2 }
    ensures { out.new ≡ replied out.old (full event.now answer) }
{
    if let RegAnswer::Dropped = answer {
        lose_offered(Cause::QueueFull, event, out);
    }
}

/// Sends the Release for which a regulator asks, at the moment `release_at` in ns, if it asks for one.
fn ask(vl: VlId, release_at: Option<u64>, out: &mut Outbound)
    requires room { length out.old.messages < MOST_SENT }
    requires numbers { out.old.sender.counter < greatest_number }
    ensures { out.new ≡ replied out.old (asked out.old.sender.number vl release_at) }
{
    if let Some(ns) = release_at {
        let number = out.number();
        out.send(ns, number, Body::Release { vl });
    }
}
