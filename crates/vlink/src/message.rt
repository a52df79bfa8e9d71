//! Messages between processes.
ghost use Rattle.std.specs.Prelude.{◌≡◌};
ghost use Rattle.vlink.specs.declared.message.Body.TheVariants.{PortFree};

use crate::frame::{Frame, FrameSize, VlId};
use crate::time::Time;

/// The contents of a message. The order of the variants is part of the order of messages.
#[derive(Clone, Copy, PartialEq, Eq, PartialOrd, Ord)]
pub enum Body {
    /// An application offers a frame of this size to a sub-virtual link, at the source of the virtual link.
    Offer { vl: VlId, size: FrameSize, sub: u8 },
    /// The regulator of the virtual link may release a waiting frame.
    Release { vl: VlId },
    /// The port's frame and the gap behind it have left.
    PortFree { port: u8 },
    /// The whole frame has arrived at this port of the node.
    Arrive { port: u8, frame: Frame },
    /// The switch puts the frame to this output port.
    Enqueue { port: u8, frame: Frame },
    /// The last bit of the frame leaves into the line.
    Carry { frame: Frame },
}

impl Default for Body {
    ghost is_default = { λ body. body ≡ PortFree 0 };

    fn default() -> Self {
        Body::PortFree { port: 0 }
    }
}

/// An event for the process `receiver` at the moment `time`.
///
/// Messages are ordered by time, receiver, sender, number and body, in this order (Jefferson's order by receive time; how ties are broken
/// is this project's choice).
#[derive(Clone, Copy, Default, PartialEq, Eq, PartialOrd, Ord)]
pub struct Message {
    pub time: Time,
    pub receiver: u16,
    pub sender: u32,
    pub number: u64,
    pub body: Body,
}

/// A message with a sign.
pub type Letter = virtual_time::Letter<Message>;
