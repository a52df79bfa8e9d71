//! The output ports of a node, each with its line.
ghost use Rattle.std.specs.Prelude.{◌≡◌, ◌+◌, ◌<◌, ◌≤◌, length};
ghost use Rattle.std.specs.Option.{option_copied};
ghost use Rattle.vlink.specs.Numbering.{greatest_number};
ghost use Rattle.reverse.specs.Sending.{replied};
ghost use Rattle.nodes.specs.rules.Ports.{answered, changed, exists, outlet_at, port_at, port_kept, port_put_kept, reply, start};
ghost use Rattle.output_port.specs.Port.{free_answer, put_answer};
ghost use Rattle.output_port.specs.declared.event.Priority.{Priority};
ghost use Rattle.output_port.specs.declared.event.PortEvent.TheVariants.{Put, Free};
ghost use Rattle.output_port.specs.declared.event.PortRecord.TheVariants as saved;
ghost use Rattle.nodes.specs.undoing.Ports.{restored, IsLastAtPort, IsPortValue};
ghost use Rattle.reverse.specs.declared.sends.TheConstants.{MOST_SENT};

use output_port::{FreeRecord, Port, PortRecord, Priority, PutRecord};
use reverse::Outbound;
use std::marker::Model;
use vlink::{Body, Cause, Frame, Time, busy_ns, last_bit_ns};

/// The line into which a port leads.
#[derive(Clone, Copy)]
pub struct LineAhead {
    /// The process of the line.
    pub line: u16,
    /// The time on the wire of one byte, in ns.
    pub byte_ns: u16,
}

/// An output port, and the line into which it leads.
#[derive(Drop)]
pub struct Outlet {
    pub ahead: LineAhead,
    pub port: Port,
}

/// The output ports of a node: for each port number the port and its line, if the port exists.
#[derive(Drop)]
pub struct Ports {
    outlets: Vec<Option<Outlet>>,
}

impl Model for Ports {
    ghost use Rattle.nodes.specs.rules.Ports.{PortsState};

    ghost Value = { PortsState };

    ghost view = { λ p. p.outlets.items };
}

impl Ports {
    /// Makes the ports with these outlets, by ascending number.
    pub(crate) fn new(outlets: Vec<Option<Outlet>>) -> Self
        ensures { result ≡ outlets.items }
    {
        Ports { outlets }
    }

    /// Returns a port with its line, if the port exists.
    fn outlet(&self, port: u8) -> Option<&Outlet>
        ensures { option_copied result ≡ outlet_at self.now port }
    {
        match self.outlets.get(usize::from(port)) {
            Some(Some(outlet)) => Some(outlet),
            _ => None,
        }
    }

    /// Whether the port exists.
    pub fn exists(&self, port: u8) -> bool
        ensures { result ≡ exists self.now port }
    {
        self.outlet(port).is_some()
    }

    /// Returns a port, if it exists.
    pub fn port(&self, port: u8) -> Option<&Port>
        ensures { option_copied result ≡ port_at self.now port }
    {
        match self.outlet(port) {
            Some(outlet) => Some(&outlet.port),
            None => None,
        }
    }

    /// Puts a frame to a port at this moment, and sends and notes what follows. If the port does not exist, nothing happens.
    #[tactic(auto, using(std::proofs::lemmas::Grind::common_steps, crate::proofs::PortLemmas::reads))]
    pub fn put(
        &mut self,
        at: Time,
        port: u8,
        frame: &Frame,
        priority: Priority,
        out: &mut Outbound,
    ) -> Option<PutRecord>
        requires room { length out.old.messages + 2 ≤ MOST_SENT }
        requires notes { length out.old.notes < 2 }
        requires numbers { out.old.sender.counter + 2 ≤ greatest_number }
        ensures state { self.new ≡ changed port (Put frame.now priority) self.old }
        ensures reply { out.new ≡ replied out.old (reply out.old.sender.number at port (Put frame.now priority) self.old) }
        ensures kept { result ≡ port_put_kept port frame.now priority self.old }
        ensures valid { IsPortValue port self.old }
    {
        let slot = self.outlets.get_mut(usize::from(port))?;
        if let Some(outlet) = slot {
            let kept = outlet.port.put(frame, priority);
            answer_put(out, at, port, outlet.ahead, frame, kept);
            Some(kept)
        } else {
            None
        }
    }

    /// Frees a port at this moment, and sends what follows. If the port does not exist, nothing happens.
    #[tactic(auto, using(std::proofs::lemmas::Grind::common_steps, crate::proofs::PortLemmas::reads))]
    #[inline(always)]
    pub fn free(&mut self, at: Time, port: u8, out: &mut Outbound) -> Option<PortRecord>
        requires room { length out.old.messages + 2 ≤ MOST_SENT }
        requires notes { length out.old.notes < 2 }
        requires numbers { out.old.sender.counter + 2 ≤ greatest_number }
        ensures state { self.new ≡ changed port Free self.old }
        ensures reply { out.new ≡ replied out.old (reply out.old.sender.number at port Free self.old) }
        ensures kept { result ≡ port_kept port Free self.old }
        ensures valid { IsPortValue port self.old }
    {
        let slot = self.outlets.get_mut(usize::from(port))?;
        if let Some(outlet) = slot {
            let kept = outlet.port.free();
            answer_free(out, at, port, outlet.ahead, &kept);
            Some(PortRecord::Free(kept))
        } else {
            None
        }
    }

    /// Undoes the last event at a port.
    #[tactic(auto, using(std::proofs::lemmas::Grind::common_steps, crate::proofs::PortLemmas::reads))]
    pub fn take_back(&mut self, port: u8, kept: PortRecord)
        requires { IsLastAtPort port kept self.old }
        ensures { self.new ≡ restored port kept self.old }
    {
        let Some(slot) = self.outlets.get_mut(usize::from(port)) else {
            return;
        };
        if let Some(outlet) = slot {
            outlet.port.take_back(kept);
        }
    }

    /// Undoes that a frame was put to a port.
    #[tactic(auto, using(std::proofs::lemmas::Grind::common_steps, crate::proofs::PortLemmas::reads))]
    pub fn take_back_put(&mut self, port: u8, kept: PutRecord)
        ensures { self.new ≡ restored port (saved.Put kept) self.old }
    {
        let Some(slot) = self.outlets.get_mut(usize::from(port)) else {
            return;
        };
        if let Some(outlet) = slot {
            outlet.port.take_back_put(kept);
        }
    }
}

/// Sends and notes what follows from a port's answer to a frame put.
fn answer_put(
    out: &mut Outbound,
    at: Time,
    port: u8,
    ahead: LineAhead,
    frame: &Frame,
    kept: PutRecord,
)
    requires room { length out.old.messages + 2 ≤ MOST_SENT }
    requires notes { length out.old.notes < 2 }
    requires numbers { out.old.sender.counter + 2 ≤ greatest_number }
    ensures { (priority : Priority) → out.new ≡ replied out.old (answered out.old.sender.number at port ahead (Put frame.now priority) (put_answer frame.now kept)) }
{
    match kept {
        PutRecord::AtOnce => start(out, at, port, ahead, frame),
        PutRecord::Kept(_) => {}
        PutRecord::Nothing => out.lose(Cause::PortFull, frame),
    }
}

/// Sends what follows from a port's answer to a Free.
#[inline(always)]
fn answer_free(out: &mut Outbound, at: Time, port: u8, ahead: LineAhead, kept: &FreeRecord)
    requires room { length out.old.messages + 2 ≤ MOST_SENT }
    requires numbers { out.old.sender.counter + 2 ≤ greatest_number }
    ensures { out.new ≡ replied out.old (answered out.old.sender.number at port ahead Free (free_answer kept.now)) }
{
    if let FreeRecord::Popped(_, frame) = kept {
        start(out, at, port, ahead, frame);
    }
}

/// Starts the frame: its last bit is carried into the line, and then the port is free.
fn start(out: &mut Outbound, at: Time, port: u8, ahead: LineAhead, frame: &Frame)
    requires room { length out.old.messages + 2 ≤ MOST_SENT }
    requires numbers { out.old.sender.counter + 2 ≤ greatest_number }
    ensures { out.new ≡ replied out.old (start out.old.sender.number at port ahead frame.now) }
{
    let byte_ns = u32::from(ahead.byte_ns);
    let size = frame.size;
    let _bytes = size.bytes();
    let last_bit = at.ns() + last_bit_ns(size, byte_ns);
    let free = at.ns() + busy_ns(size, byte_ns);
    let number = out.number();
    out.send_both(
        last_bit,
        ahead.line,
        Body::Carry { frame: *frame },
        free,
        number,
        Body::PortFree { port },
    );
}
