//! An end system: regulators, ports and receivers in one process.
ghost use Rattle.std.specs.Prelude.{◌≡◌, ◌+◌, ◌<◌, ◌≤◌, ◌^◌, [], length, map, slice_get, IfSome};
ghost use Rattle.std.specs.Option.{option_copied, option_map};
ghost use Rattle.vlink.specs.Numbering.{greatest_number};
ghost use Rattle.vlink.specs.declared.note.Cause.TheVariants.{Unknown};
ghost use Rattle.bag_regulator.specs.declared.event.RegEvent.TheVariants.{Offer};
ghost use Rattle.reverse.specs.Sending.{replied};
ghost use Rattle.nodes.specs.rules.Finding.{AreNumbers, Found, place_of};
ghost use Rattle.nodes.specs.declared.source.Source.{Source};
ghost use Rattle.nodes.specs.declared.reception.Reception.{Reception};
ghost use Rattle.nodes.specs.rules.Ports.{port_at};
ghost use Rattle.nodes.specs.rules.EndSystem.{end_system, lost, offered_frame, regulated, taken_in, reception_at, reception_number, source_at, source_number};
ghost use Rattle.nodes.specs.undoing.Changes.{end_system_undone, modified, source_undone, reception_undone, IsLastOfSource, IsLastOfEndSystem};
ghost use Rattle.reverse.specs.declared.sends.TheConstants.{MOST_SENT};

use crate::change::Change;
use crate::finding::place_of;
use crate::ports::Ports;
use crate::receiving::ReceivingRecord;
use crate::reception::Reception;
use crate::source::{Source, lose_offered};
use bag_regulator::{BagRegulator, RegEvent, RegRecord};
use output_port::Port;
use reverse::Outbound;
use std::marker::Model;
use vlink::{Body, Cause, Frame, FrameSize, Message, Net, Time, VlId};

/// An end system. The regulators of its virtual links release the frames that are offered, a copy on each network. It checks and delivers
/// the frames that arrive (ARINC 664 Part 7).
///
/// Its virtual links are sorted by number.
#[derive(Drop)]
pub struct EndSystem {
    sources: Vec<Source>,
    /// The numbers of the virtual links that it sends.
    sent: Vec<u16>,
    receptions: Vec<Reception>,
    /// The numbers of the virtual links that it receives.
    received: Vec<u16>,
    ports: Ports,
}

impl Model for EndSystem {
    ghost use Rattle.nodes.specs.rules.Finding.{AreNumbers};
    ghost use Rattle.nodes.specs.rules.EndSystem.{EndSystemState, source_number, reception_number};

    ghost Value = { EndSystemState };

    ghost view = { λ s. record { sources = s.sources.items; receptions = s.receptions.items; ports = s.ports } };

    ghost invariant = { λ s. AreNumbers source_number s.sources.items s.sent.items × AreNumbers reception_number s.receptions.items s.received.items };
}

impl EndSystem {
    /// Makes an end system of these parts.
    pub(crate) fn new(
        sources: Vec<Source>,
        sent: Vec<u16>,
        receptions: Vec<Reception>,
        received: Vec<u16>,
        ports: Ports,
    ) -> Self
        requires sources { AreNumbers source_number sources.items sent.items }
        requires receptions { AreNumbers reception_number receptions.items received.items }
        ensures { result ≡ record { sources = sources.items; receptions = receptions.items; ports = ports } }
    {
        EndSystem {
            sources,
            sent,
            receptions,
            received,
            ports,
        }
    }

    /// Handles a message, and returns what it changed.
    #[inline(always)]
    pub fn handle(&mut self, message: &Message, out: &mut Outbound) -> Change
        requires messages { out.old.messages ≡ [] }
        requires notes { out.old.notes ≡ [] }
        requires numbers { out.old.sender.counter + MOST_SENT ≤ greatest_number }
        ensures state { self.new ≡ (end_system out.old.sender.number message.now.time message.now.body self.old).state }
        ensures reply { out.new ≡ replied out.old (end_system out.old.sender.number message.now.time message.now.body self.old).reply }
        ensures change { result ≡ (end_system out.old.sender.number message.now.time message.now.body self.old).change }
        ensures last { IsLastOfEndSystem result self.new }
    {
        let at = message.time;
        match &message.body {
            Body::Offer { vl, size, sub } => {
                self.regulate(at, *vl, &offer(at, *vl, *size, *sub), out)
            }
            Body::Release { vl } => self.regulate(at, *vl, &RegEvent::Release { at }, out),
            Body::PortFree { port } => Change::of_port(*port, self.ports.free(at, *port, out)),
            Body::Arrive { port, frame } if self.ports.exists(*port) => self.take(at, frame, out),
            _ => Change::Nothing,
        }
    }

    /// Undoes the last change.
    pub fn take_back(&mut self, change: &Change)
        requires { IsLastOfEndSystem change.now self.old }
        ensures { self.new ≡ end_system_undone change.now self.old }
    {
        match *change {
            Change::Source {
                place,
                copies,
                kept,
            } => {
                copies.take_back(&mut self.ports);
                self.take_back_source(place, kept);
            }
            Change::Reception { place, kept } => self.take_back_reception(place, kept),
            Change::Outlet { port, kept } => self.ports.take_back(port, kept),
            Change::Transit { .. } | Change::Nothing => {}
        }
    }

    /// Undoes an event of the regulator at a place.
    #[tactic(auto, using(std::proofs::lemmas::Grind::common_steps, crate::proofs::PortLemmas::reads, crate::proofs::NumberLemmas::numbers_stay))]
    fn take_back_source(&mut self, place: u16, kept: RegRecord)
        requires { IfSome (slice_get self.old.sources place) (IsLastOfSource kept) }
        ensures { self.new ≡ record self.old { sources = modified place (source_undone kept) self.old.sources } }
    {
        let Some(source) = self.sources.get_mut(usize::from(place)) else {
            return;
        };
        source.regulator.take_back(kept);
    }

    /// Undoes that a frame came to the checks at a place.
    #[tactic(auto, using(std::proofs::lemmas::Grind::common_steps, crate::proofs::PortLemmas::reads, crate::proofs::NumberLemmas::numbers_stay))]
    fn take_back_reception(&mut self, place: u16, kept: ReceivingRecord)
        ensures { self.new ≡ record self.old { receptions = modified place (reception_undone kept) self.old.receptions } }
    {
        let Some(reception) = self.receptions.get_mut(usize::from(place)) else {
            return;
        };
        reception.receiving.take_back(kept);
    }

    /// Passes an event to the regulator of a virtual link. A frame of a virtual link that does not begin here is lost.
    #[tactic(auto, using(crate::proofs::NumberLemmas::numbers_stay))]
    #[inline(always)]
    fn regulate(&mut self, at: Time, vl: VlId, event: &RegEvent, out: &mut Outbound) -> Change
        requires messages { out.old.messages ≡ [] }
        requires notes { out.old.notes ≡ [] }
        requires numbers { out.old.sender.counter + MOST_SENT ≤ greatest_number }
        ensures state { self.new ≡ (regulated out.old.sender.number at event.now (lost Unknown event.now) self.old (source_at self.old vl)).state }
        ensures reply { out.new ≡ replied out.old (regulated out.old.sender.number at event.now (lost Unknown event.now) self.old (source_at self.old vl)).reply }
        ensures change { result ≡ (regulated out.old.sender.number at event.now (lost Unknown event.now) self.old (source_at self.old vl)).change }
        ensures last { IsLastOfEndSystem result self.new }
    {
        let Some(place) = self.source(vl) else {
            lose_offered(Cause::Unknown, event, out);
            return Change::Nothing;
        };
        let source = &mut self.sources[place];
        source.regulate(at, event, place as u16, &mut self.ports, out)
    }

    /// Receives a frame. It is lost if its virtual link does not end here on its network.
    #[tactic(auto, using(crate::proofs::NumberLemmas::numbers_stay))]
    #[inline(always)]
    fn take(&mut self, at: Time, frame: &Frame, out: &mut Outbound) -> Change
        requires { length out.old.notes < 2 }
        ensures state { self.new ≡ (taken_in at frame.now self.old (reception_at self.old frame.now.vl frame.now.net)).state }
        ensures reply { out.new ≡ replied out.old (taken_in at frame.now self.old (reception_at self.old frame.now.vl frame.now.net)).reply }
        ensures change { result ≡ (taken_in at frame.now self.old (reception_at self.old frame.now.vl frame.now.net)).change }
        ensures last { IsLastOfEndSystem result self.new }
    {
        let Some(place) = self.reception(frame.vl, frame.net) else {
            out.lose(Cause::Unknown, frame);
            return Change::Nothing;
        };
        let reception = &mut self.receptions[place];
        Change::Reception {
            place: place as u16,
            kept: reception.receiving.receive(at, frame, out),
        }
    }

    /// Returns the regulator of a virtual link, if the end system sends it.
    pub fn regulator(&self, vl: VlId) -> Option<&BagRegulator>
        ensures { option_copied result ≡ option_map (λ (found : Found Source). found.entry.regulator) (source_at self.now vl) }
    {
        let place = self.source(vl)?;
        Some(&self.sources[place].regulator)
    }

    /// Returns a port, if it exists.
    pub fn port(&self, port: u8) -> Option<&Port>
        ensures { option_copied result ≡ port_at self.now.ports port }
    {
        self.ports.port(port)
    }

    /// Returns the place of a virtual link among those that the end system sends.
    #[inline(always)]
    fn source(&self, vl: VlId) -> Option<usize>
        ensures place { result ≡ place_of (map source_number self.now.sources) vl.0 }
        ensures within { IfSome result (λ place. place < length self.now.sources) }
        ensures small { IfSome result (λ place. place < 2 ^ 16) }
    {
        place_of(self.sent.as_slice(), vl)
    }

    /// Returns the place of a virtual link among those that the end system receives.
    #[inline(always)]
    fn ending(&self, vl: VlId) -> Option<usize>
        ensures place { result ≡ place_of (map reception_number self.now.receptions) vl.0 }
        ensures within { IfSome result (λ place. place < length self.now.receptions) }
        ensures small { IfSome result (λ place. place < 2 ^ 16) }
    {
        place_of(self.received.as_slice(), vl)
    }

    /// Returns the place of a virtual link that ends here on this network among those that the end system receives.
    #[inline(always)]
    fn reception(&self, vl: VlId, net: Net) -> Option<usize>
        ensures place { result ≡ option_map (λ (found : Found Reception). found.place) (reception_at self.now vl net) }
        ensures small { IfSome result (λ place. place < 2 ^ 16) }
    {
        let place = self.ending(vl)?;
        if self.receptions[place].end.is_on(net) {
            Some(place)
        } else {
            None
        }
    }
}

/// Makes the event of a frame of this size that is offered to a sub-virtual link.
fn offer(at: Time, vl: VlId, size: FrameSize, sub: u8) -> RegEvent
    ensures { result ≡ Offer at sub (offered_frame at vl size) }
{
    let frame = Frame {
        vl,
        number: 0,
        size,
        offered: at,
        released: Time::default(),
        net: Net::A,
    };
    RegEvent::Offer { at, sub, frame }
}
