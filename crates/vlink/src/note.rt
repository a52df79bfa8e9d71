//! What a process notes of a frame: delivered, or dropped and why.
ghost use Rattle.std.specs.Prelude.{◌≡◌};
ghost use Rattle.vlink.specs.declared.note.Note.TheVariants.{Delivered};

use crate::frame::{FrameSize, VlId};
use crate::message::Message;

/// Why a frame was dropped, in the order of the tables.
#[derive(Clone, Copy, Debug, PartialEq, Eq, PartialOrd, Ord)]
pub enum Cause {
    QueueFull,
    PortFull,
    Outage,
    Unknown,
    TooLong,
    Policed,
    Integrity,
    Duplicate,
}

/// What finally became of a frame.
#[derive(Clone, Copy, PartialEq, Eq)]
pub enum Note {
    Delivered {
        vl: VlId,
        latency: u64,
    },
    Dropped {
        vl: VlId,
        cause: Cause,
        size: FrameSize,
    },
}

impl Default for Note {
    ghost is_default = { λ note. note ≡ Delivered (record { 0 = 0 }) 0 };

    fn default() -> Self {
        Note::Delivered {
            vl: VlId(0),
            latency: 0,
        }
    }
}

/// A note with the message whose event gave it, and the process at which that happened.
pub type Row = virtual_time::Row<Message, Note>;
