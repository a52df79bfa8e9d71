//! How rows write messages: `RECEIVER.SENDER.NUMBER/` and then one of `offer@NS:VL.BYTES.SUB`, `release@NS:VL`, `free@NS:PORT`,
//! `arrive@NS:PORT:FRAME`, `enqueue@NS:PORT:FRAME` and `carry@NS:FRAME`. A frame is `VL.BYTES.NUMBER.NET.OFFERED.RELEASED`, with its
//! moments in ns and 0 for network A. A part that is left out, in front or behind, is 0.
ghost use Rattle.std.specs.Prelude.{◌≤◌};

use crate::tests::words::{
    byte_at, long_at, moment_at, number_at, short_at, size_at, tell, tell_number, tell_numbers,
};
use vlink::{Body, Frame, FrameSize, Message, Net, VlId};

pub fn message(word: &str) -> Message {
    let (head, event) = word.split_once('/').unwrap_or(("", word));
    Message {
        time: moment_at(event, 1),
        receiver: short_at(head, 0),
        sender: long_at(head, 1),
        number: number_at(head, 2),
        body: body(event),
    }
}

fn body(event: &str) -> Body {
    let (label, _) = event.split_once('@').unwrap_or((event, ""));
    match label {
        "offer" => Body::Offer {
            vl: VlId(short_at(event, 2)),
            size: size_at(event, 3),
            sub: byte_at(event, 4),
        },
        "release" => Body::Release {
            vl: VlId(short_at(event, 2)),
        },
        "arrive" => Body::Arrive {
            port: byte_at(event, 2),
            frame: frame(event, 3),
        },
        "enqueue" => Body::Enqueue {
            port: byte_at(event, 2),
            frame: frame(event, 3),
        },
        "carry" => Body::Carry {
            frame: frame(event, 2),
        },
        _ => Body::PortFree {
            port: byte_at(event, 2),
        },
    }
}

// Reads the frame whose numbers begin at this place.
fn frame(event: &str, place: usize) -> Frame
    requires { place ≤ 3 }
{
    Frame {
        vl: VlId(short_at(event, place)),
        size: size_at(event, place + 1),
        number: byte_at(event, place + 2),
        net: net_of(number_at(event, place + 3)),
        offered: moment_at(event, place + 4),
        released: moment_at(event, place + 5),
    }
}

fn net_of(number: u64) -> Net {
    if number == 0 { Net::A } else { Net::B }
}

pub fn tell_message(message: &Message, told: &mut String) {
    let (receiver, sender) = (u64::from(message.receiver), u64::from(message.sender));
    tell_numbers(told, &[receiver, sender, message.number]);
    tell(told, "/");
    tell(told, label_of(&message.body));
    tell(told, "@");
    tell_number(told, message.time.ns());
    tell(told, ":");
    tell_body(&message.body, told);
    tell(told, " ");
}

fn label_of(body: &Body) -> &'static str {
    match body {
        Body::Offer { .. } => "offer",
        Body::Release { .. } => "release",
        Body::PortFree { .. } => "free",
        Body::Arrive { .. } => "arrive",
        Body::Enqueue { .. } => "enqueue",
        Body::Carry { .. } => "carry",
    }
}

fn tell_body(body: &Body, told: &mut String) {
    match *body {
        Body::Offer { vl, size, sub } => tell_offer(vl, size, sub, told),
        Body::Release { vl } => tell_number(told, u64::from(vl.0)),
        Body::PortFree { port } => tell_number(told, u64::from(port)),
        Body::Arrive { port, frame } => tell_at_port(port, &frame, told),
        Body::Enqueue { port, frame } => tell_at_port(port, &frame, told),
        Body::Carry { frame } => tell_frame(&frame, told),
    }
}

fn tell_offer(vl: VlId, size: FrameSize, sub: u8, told: &mut String) {
    let (vl, bytes) = (u64::from(vl.0), u64::from(size.bytes()));
    tell_numbers(told, &[vl, bytes, u64::from(sub)]);
}

fn tell_at_port(port: u8, frame: &Frame, told: &mut String) {
    tell_number(told, u64::from(port));
    tell(told, ":");
    tell_frame(frame, told);
}

fn tell_frame(frame: &Frame, told: &mut String) {
    let numbers = [
        u64::from(frame.vl.0),
        u64::from(frame.size.bytes()),
        u64::from(frame.number),
        frame.net as u64,
        frame.offered.ns(),
        frame.released.ns(),
    ];
    tell_numbers(told, &numbers);
}
