//! Both copies of a frame that an end system sends: they are put to the ports of A and B, and taken back.
ghost use Rattle.std.specs.Prelude.{◌≡◌, ◌+◌, ◌<◌, ◌≤◌, [], length};
ghost use Rattle.vlink.specs.Numbering.{greatest_number};
ghost use Rattle.vlink.specs.declared.frame.Frame.{Frame};
ghost use Rattle.bag_regulator.specs.declared.event.RegAnswer.TheVariants.{Released};
ghost use Rattle.reverse.specs.Sending.{replied};
ghost use Rattle.nodes.specs.rules.EndSystem.{copied, copied_kept, copied_reply, port_of, released_kept, released_out, released_reply};
ghost use Rattle.nodes.specs.undoing.Ports.{uncopied};
ghost use Rattle.reverse.specs.declared.sends.TheConstants.{MOST_SENT};

use crate::ports::Ports;
use crate::vl_end::VlEnd;
use bag_regulator::RegAnswer;
use output_port::{Priority, PutRecord};
use reverse::Outbound;
use vlink::{Frame, Net, Time};

/// What became of the copies of a frame at the ports of A and B; nothing, if none was put.
#[derive(Clone, Copy)]
pub struct CopiesRecord {
    pub a: PutRecord,
    pub b: PutRecord,
}

impl CopiesRecord {
    /// Undoes both copies, B before A.
    pub fn take_back(self, ports: &mut Ports)
        ensures { ports.new ≡ uncopied self ports.old }
    {
        ports.take_back_put(port_of(Net::B), self.b);
        ports.take_back_put(port_of(Net::A), self.a);
    }
}

/// Sends both copies of the frame that a regulator releases, A before B.
pub fn release(
    at: Time,
    end: &VlEnd,
    answer: RegAnswer,
    ports: &mut Ports,
    out: &mut Outbound,
) -> CopiesRecord
    requires room { length out.old.messages + 4 ≤ MOST_SENT }
    requires notes { (frame : Frame) → answer ≡ Released frame → out.old.notes ≡ [] }
    requires numbers { out.old.sender.counter + 4 ≤ greatest_number }
    ensures ports { ports.new ≡ released_out end.now answer ports.old }
    ensures reply { out.new ≡ replied out.old (released_reply out.old.sender.number at end.now answer ports.old) }
    ensures kept { result ≡ released_kept end.now answer ports.old }
{
    let RegAnswer::Released(frame) = answer else {
        return CopiesRecord {
            a: PutRecord::Nothing,
            b: PutRecord::Nothing,
        };
    };
    let a = copy_out(at, end, Net::A, &frame, ports, out);
    let b = copy_out(at, end, Net::B, &frame, ports, out);
    CopiesRecord { a, b }
}

/// Puts the copy of a frame for this network to the network's port, if the virtual link is on it.
fn copy_out(
    at: Time,
    end: &VlEnd,
    net: Net,
    frame: &Frame,
    ports: &mut Ports,
    out: &mut Outbound,
) -> PutRecord
    requires room { length out.old.messages + 2 ≤ MOST_SENT }
    requires notes { length out.old.notes < 2 }
    requires numbers { out.old.sender.counter + 2 ≤ greatest_number }
    ensures ports { ports.new ≡ copied end.now net frame.now ports.old }
    ensures reply { out.new ≡ replied out.old (copied_reply out.old.sender.number at end.now net frame.now ports.old) }
    ensures kept { result ≡ copied_kept end.now net frame.now ports.old }
{
    if !end.is_on(net) {
        return PutRecord::Nothing;
    }
    let copy = copy(net, frame);
    let kept = ports.put(at, port_of(net), &copy, Priority::Low, out);
    kept.unwrap_or(PutRecord::Nothing)
}

/// Makes the copy of a frame for this network. All frames of an end system have low priority at its ports (profile).
fn copy(net: Net, frame: &Frame) -> Frame
    ensures { result ≡ record frame.now { net = net } }
{
    Frame { net, ..*frame }
}

/// Returns the number of the port of this network.
fn port_of(net: Net) -> u8
    ensures { result ≡ port_of net }
{
    match net {
        Net::A => 0,
        Net::B => 1,
    }
}
