//! A switch: policing, delay and output ports in one process.
ghost use Rattle.std.specs.Prelude.{◌≡◌, ◌+◌, ◌<◌, ◌≤◌, ◌^◌, [], length, map, slice_get, IfSome};
ghost use Rattle.std.specs.Option.{option_copied, option_map};
ghost use Rattle.vlink.specs.Numbering.{greatest_number};
ghost use Rattle.reverse.specs.Sending.{replied};
ghost use Rattle.nodes.specs.rules.Finding.{AreNumbers, Found, place_of};
ghost use Rattle.nodes.specs.declared.transit.Transit.{Transit};
ghost use Rattle.nodes.specs.rules.Ports.{port_at};
ghost use Rattle.nodes.specs.rules.Switch.{entered, entered_kept, entered_reply, forwarded, judged, outputs_of, switch, taken_in, put, transit_at, transit_number};
ghost use Rattle.nodes.specs.undoing.Changes.{modified, switch_undone, transit_undone, IsLastOfTransit, IsLastOfSwitch};
ghost use Rattle.reverse.specs.declared.sends.TheConstants.{MOST_SENT};

use crate::change::Change;
use crate::finding::place_of;
use crate::ports::Ports;
use crate::transit::Transit;
use output_port::{Port, Priority};
use policer::{AccountRecord, Arrival, Verdict};
use reverse::{Outbound, Reversible};
use std::marker::Model;
use vlink::{Body, Cause, Frame, Message, Time, VlId};

/// A switch. It polices each frame that comes in, and after its delay puts it to the output ports of its virtual link (ARINC 664 Part 7;
/// that the delay is one fixed time is this project's profile).
///
/// The virtual links that go through it are sorted by number.
#[derive(Drop)]
pub struct Switch {
    latency_ns: u32,
    transits: Vec<Transit>,
    /// The numbers of these virtual links.
    numbers: Vec<u16>,
    ports: Ports,
}

impl Model for Switch {
    ghost use Rattle.nodes.specs.rules.Finding.{AreNumbers};
    ghost use Rattle.nodes.specs.rules.Switch.{SwitchState, transit_number};

    ghost Value = { SwitchState };

    ghost view = { λ s. record { latency = s.latency_ns; transits = s.transits.items; ports = s.ports } };

    ghost invariant = { λ s. AreNumbers transit_number s.transits.items s.numbers.items };
}

impl Switch {
    /// Makes a switch of these parts.
    pub(crate) fn new(
        latency_ns: u32,
        transits: Vec<Transit>,
        numbers: Vec<u16>,
        ports: Ports,
    ) -> Self
        requires { AreNumbers transit_number transits.items numbers.items }
        ensures { result ≡ record { latency = latency_ns; transits = transits.items; ports = ports } }
    {
        Switch {
            latency_ns,
            transits,
            numbers,
            ports,
        }
    }

    /// Handles a message, and returns what it changed.
    #[inline(always)]
    pub fn handle(&mut self, message: &Message, out: &mut Outbound) -> Change
        requires messages { out.old.messages ≡ [] }
        requires notes { out.old.notes ≡ [] }
        requires numbers { out.old.sender.counter + MOST_SENT ≤ greatest_number }
        ensures state { self.new ≡ (switch out.old.sender.number message.now.time message.now.body self.old).state }
        ensures reply { out.new ≡ replied out.old (switch out.old.sender.number message.now.time message.now.body self.old).reply }
        ensures change { result ≡ (switch out.old.sender.number message.now.time message.now.body self.old).change }
        ensures last { IsLastOfSwitch result self.new }
    {
        let at = message.time;
        match &message.body {
            Body::PortFree { port } => Change::of_port(*port, self.ports.free(at, *port, out)),
            Body::Arrive { port, frame } if self.ports.exists(*port) => {
                self.take(at, *port, frame, out)
            }
            Body::Enqueue { port, frame } if self.ports.exists(*port) => {
                self.put(at, *port, frame, out)
            }
            _ => Change::Nothing,
        }
    }

    /// Undoes the last change.
    pub fn take_back(&mut self, change: &Change)
        requires { IsLastOfSwitch change.now self.old }
        ensures { self.new ≡ switch_undone change.now self.old }
    {
        match *change {
            Change::Transit { place, kept } => self.take_back_transit(place, kept),
            Change::Outlet { port, kept } => self.ports.take_back(port, kept),
            Change::Source { .. } | Change::Reception { .. } | Change::Nothing => {}
        }
    }

    /// Undoes that the account at a place judged a frame.
    #[tactic(auto, using(std::proofs::lemmas::Grind::common_steps, crate::proofs::PortLemmas::reads, crate::proofs::NumberLemmas::numbers_stay))]
    fn take_back_transit(&mut self, place: u16, kept: AccountRecord)
        requires { IfSome (slice_get self.old.transits place) (IsLastOfTransit kept) }
        ensures { self.new ≡ record self.old { transits = modified place (transit_undone kept) self.old.transits } }
    {
        let Some(transit) = self.transits.get_mut(usize::from(place)) else {
            return;
        };
        transit.account.take_back(kept);
    }

    /// Returns a port, if it exists.
    pub fn port(&self, port: u8) -> Option<&Port>
        ensures { option_copied result ≡ port_at self.now.ports port }
    {
        self.ports.port(port)
    }

    /// Receives a frame at a port.
    #[tactic(auto, using(crate::proofs::NumberLemmas::numbers_stay))]
    #[inline(always)]
    fn take(&mut self, at: Time, port: u8, frame: &Frame, out: &mut Outbound) -> Change
        requires messages { out.old.messages ≡ [] }
        requires notes { out.old.notes ≡ [] }
        requires numbers { out.old.sender.counter + MOST_SENT ≤ greatest_number }
        ensures state { self.new ≡ (taken_in out.old.sender.number at port frame.now self.old (transit_at self.old frame.now.vl)).state }
        ensures reply { out.new ≡ replied out.old (taken_in out.old.sender.number at port frame.now self.old (transit_at self.old frame.now.vl)).reply }
        ensures change { result ≡ (taken_in out.old.sender.number at port frame.now self.old (transit_at self.old frame.now.vl)).change }
        ensures last { IsLastOfSwitch result self.new }
    {
        let Some(place) = self.place(frame.vl) else {
            out.lose(Cause::Unknown, frame);
            return Change::Nothing;
        };
        let transit = &mut self.transits[place];
        Change::of_transit(
            place as u16,
            enter(at, self.latency_ns, port, frame, transit, out),
        )
    }

    /// Puts a frame to a port, with the priority of its virtual link.
    #[inline(always)]
    fn put(&mut self, at: Time, port: u8, frame: &Frame, out: &mut Outbound) -> Change
        requires messages { out.old.messages ≡ [] }
        requires notes { out.old.notes ≡ [] }
        requires numbers { out.old.sender.counter + MOST_SENT ≤ greatest_number }
        ensures state { self.new ≡ (put out.old.sender.number at port frame.now self.old (transit_at self.old frame.now.vl)).state }
        ensures reply { out.new ≡ replied out.old (put out.old.sender.number at port frame.now self.old (transit_at self.old frame.now.vl)).reply }
        ensures change { result ≡ (put out.old.sender.number at port frame.now self.old (transit_at self.old frame.now.vl)).change }
        ensures last { IsLastOfSwitch result self.new }
    {
        let Some(priority) = self.priority(frame.vl) else {
            out.lose(Cause::Unknown, frame);
            return Change::Nothing;
        };
        Change::of_put(port, self.ports.put(at, port, frame, priority, out))
    }

    /// Returns the priority of a virtual link that goes through the switch.
    #[inline(always)]
    fn priority(&self, vl: VlId) -> Option<Priority>
        ensures { result ≡ option_map (λ (found : Found Transit). found.entry.priority) (transit_at self.now vl) }
    {
        let place = self.place(vl)?;
        Some(self.transits[place].priority)
    }

    /// Returns the place of a virtual link among those that go through the switch.
    #[inline(always)]
    fn place(&self, vl: VlId) -> Option<usize>
        ensures place { result ≡ place_of (map transit_number self.now.transits) vl.0 }
        ensures within { IfSome result (λ place. place < length self.now.transits) }
        ensures small { IfSome result (λ place. place < 2 ^ 16) }
    {
        place_of(self.numbers.as_slice(), vl)
    }
}

/// Receives a frame of a virtual link at a port. It is lost if the virtual link does not come in there, if the frame is too long, or if the
/// account refuses it.
#[inline(always)]
fn enter(
    at: Time,
    latency_ns: u32,
    port: u8,
    frame: &Frame,
    transit: &mut Transit,
    out: &mut Outbound,
) -> Option<AccountRecord>
    requires messages { out.old.messages ≡ [] }
    requires notes { out.old.notes ≡ [] }
    requires numbers { out.old.sender.counter + MOST_SENT ≤ greatest_number }
    ensures transit { transit.new ≡ entered at port frame.now transit.old }
    ensures number { transit_number transit.new ≡ transit_number transit.old }
    ensures reply { out.new ≡ replied out.old (entered_reply out.old.sender.number at latency_ns port frame.now transit.old) }
    ensures kept { result ≡ entered_kept at port frame.now transit.old }
    ensures last { IfSome result (λ kept. IsLastOfTransit kept transit.new) }
{
    if transit.input != port {
        out.lose(Cause::Unknown, frame);
        return None;
    }
    if frame.size > transit.smax {
        out.lose(Cause::TooLong, frame);
        return None;
    }
    let arrival = Arrival {
        at,
        size: frame.size,
    };
    let (verdict, kept) = transit.account.apply(&arrival);
    let ns = at.ns() + u64::from(latency_ns);
    answer_verdict(ns, frame, transit, verdict, out);
    Some(kept)
}

/// Sends a frame that passed on at the moment `ns`, and notes one that the account refused as lost.
#[inline(always)]
fn answer_verdict(ns: u64, frame: &Frame, transit: &Transit, verdict: Verdict, out: &mut Outbound)
    requires messages { out.old.messages ≡ [] }
    requires notes { out.old.notes ≡ [] }
    requires numbers { out.old.sender.counter + MOST_SENT ≤ greatest_number }
    ensures { out.new ≡ replied out.old (judged out.old.sender.number ns frame.now (outputs_of transit.now) verdict) }
{
    match verdict {
        Verdict::Passed => forward(ns, frame, transit, out),
        Verdict::Refused => out.lose(Cause::Policed, frame),
    }
}

/// Puts a frame that passed to the output ports of its virtual link at the moment `ns`, the ports in ascending order.
#[inline(always)]
fn forward(ns: u64, frame: &Frame, transit: &Transit, out: &mut Outbound)
    requires messages { out.old.messages ≡ [] }
    requires numbers { out.old.sender.counter + MOST_SENT ≤ greatest_number }
    ensures { out.new ≡ replied out.old (forwarded out.old.sender.number ns frame.now (outputs_of transit.now)) }
{
    let number = out.number();
    for port in transit.outputs.ports() {
        out.send(
            ns,
            number,
            Body::Enqueue {
                port: *port,
                frame: *frame,
            },
        );
    }
}
