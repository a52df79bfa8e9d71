//! One direction of a link as a process.
ghost use Rattle.std.specs.Prelude.{◌≡◌, ◌+◌, ◌<◌, ◌≤◌, length};
ghost use Rattle.std.specs.List.{list_any};
ghost use Rattle.vlink.specs.Numbering.{greatest_number};
ghost use Rattle.reverse.specs.Sending.{replied};
ghost use Rattle.nodes.specs.rules.Line.{carried, is_within, line};
ghost use Rattle.reverse.specs.declared.sends.TheConstants.{MOST_SENT};

use network::Outage;
use reverse::Outbound;
use std::marker::Model;
use vlink::{Body, Cause, Frame, Message, Time};

/// One direction of a link. It has no state that changes.
#[derive(Drop)]
pub struct Line {
    to: u16,
    to_port: u8,
    propagation_ns: u32,
    outages: Vec<Outage>,
}

impl Model for Line {
    ghost use Rattle.nodes.specs.rules.Line.{LineState};

    ghost Value = { LineState };

    ghost view = { λ l. record { to = l.to; to_port = l.to_port; propagation = l.propagation_ns; outages = l.outages.items } };
}

impl Line {
    /// Makes a line to a port of a node.
    pub(crate) fn new(to: u16, to_port: u8, propagation_ns: u32, outages: Vec<Outage>) -> Self
        ensures { result ≡ record { to = to; to_port = to_port; propagation = propagation_ns; outages = outages.items } }
    {
        Line {
            to,
            to_port,
            propagation_ns,
            outages,
        }
    }

    /// Whether this moment lies in an outage. It checks each outage of the line.
    fn is_out(&self, at: Time) -> bool
        ensures { result ≡ list_any (is_within at) self.now.outages }
    {
        let ns = at.ns();
        self.outages
            .iter()
            .any(|outage| outage.from_ns <= ns && ns < outage.to_ns)
    }

    /// Handles that the last bit of a frame leaves into the line.
    #[inline(always)]
    fn carry(&self, at: Time, frame: &Frame, out: &mut Outbound)
        requires room { length out.old.messages < MOST_SENT }
        requires notes { length out.old.notes < 2 }
        requires numbers { out.old.sender.counter < greatest_number }
        ensures { out.new ≡ replied out.old (carried at frame.now self.now) }
    {
        if self.is_out(at) {
            out.lose(Cause::Outage, frame);
            return;
        }
        let ns = at.ns() + u64::from(self.propagation_ns);
        let port = self.to_port;
        out.send(
            ns,
            self.to,
            Body::Arrive {
                port,
                frame: *frame,
            },
        );
    }

    /// Handles a message: a frame that the line carries arrives after the propagation time, or is lost in an outage.
    #[inline(always)]
    pub fn handle(&self, message: &Message, out: &mut Outbound)
        requires room { length out.old.messages < MOST_SENT }
        requires notes { length out.old.notes < 2 }
        requires numbers { out.old.sender.counter < greatest_number }
        ensures { out.new ≡ replied out.old (line message.now.time message.now.body self.now) }
    {
        if let Body::Carry { frame } = &message.body {
            self.carry(message.time, frame, out);
        }
    }
}
