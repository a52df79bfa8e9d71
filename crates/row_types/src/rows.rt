//! What rows of a network's description have, whatever text they were read from.
use crate::name::Name;
use vlink::{FrameSize, Net, VlId};

/// The kind of a node.
#[derive(Clone, Copy)]
pub enum NodeKind {
    EndSystem,
    /// A switch belongs to one network, and a frame takes `latency_ns` ns through it.
    Switch { net: Net, latency_ns: u32 },
}

/// The rate of a link.
#[derive(Clone, Copy)]
pub enum Rate {
    Mbit10,
    Mbit100,
    Mbit1000,
}

/// The priority of the frames of a virtual link. It selects one of the two lists of an output port.
#[derive(Clone, Copy)]
pub enum Priority {
    High,
    Low,
}

/// What switches count when they police a virtual link.
#[derive(Clone, Copy)]
pub enum Policing {
    Bytes,
    Frames,
}

/// When the bursts of a stream come.
#[derive(Clone, Copy)]
pub enum Timing {
    /// Each by its period, and later by its own delay.
    Periodic,
    /// Each a period after the one before, and later by its own delay.
    Sporadic,
}

/// What an application offers to a virtual link: bursts of frames.
#[derive(Clone, Copy)]
pub struct Stream {
    /// The size of its frames.
    pub size: FrameSize,
    /// How many frames are a burst.
    pub frames: u8,
    /// The size of the last frame of a burst, if it is another one.
    pub last_size: Option<FrameSize>,
    /// The moment at which the first burst is due, in ns.
    pub offset_ns: u64,
    /// The time from one burst to the next, in ns.
    pub period_ns: u64,
    /// The greatest delay of a burst, in ns.
    pub jitter_ns: u32,
    /// What delays do to later bursts.
    pub timing: Timing,
    /// The moment after which it offers nothing.
    pub end_ns: Option<u64>,
    /// The sub-virtual link of all its bursts. Without one they take turns.
    pub sub_vl: Option<u8>,
}

/// A row of the section `node`.
pub struct NodeRow {
    pub name: Name,
    pub kind: NodeKind,
    /// How many bytes may wait at each port.
    pub port_bytes: u32,
    /// Whether the row has a key that a row of this section may not have.
    pub has_unknown_key: bool,
}

impl Drop for NodeRow {
    fn drop(self) {
        let Self {
            name: _,
            kind: _,
            port_bytes: _,
            has_unknown_key: _,
        } = self;
    }
}

/// The parameters of a virtual link. `netdesc` passes them on unchanged, so a key of a virtual link is one field, one line of the table and
/// one reader.
#[derive(Clone, Copy)]
pub struct VirtualLink {
    pub id: VlId,
    /// The bandwidth allocation gap, in ms.
    pub bag_ms: u8,
    /// The greatest size of a frame that passes a switch (Smax).
    pub smax: FrameSize,
    /// The priority of its frames at the output ports of switches.
    pub priority: Priority,
    /// The policing jitter: how much earlier than the BAG allows a switch lets a frame pass, in ns.
    pub policing_jitter_ns: u32,
    /// What a switch counts when it polices.
    pub policing: Policing,
    /// The greatest skew: how long after one copy of a frame the other may come, in ns.
    pub skew_max_ns: u32,
    /// How many frames may wait at the source, in each sub-virtual link.
    pub depth: u16,
    /// The number of sub-virtual links.
    pub sub: u8,
    /// What its own row says is offered.
    pub own: Stream,
}

/// A row of the section `stream`.
#[derive(Drop)]
pub struct StreamRow {
    /// The virtual link that it offers frames to.
    pub vl: VlId,
    pub stream: Stream,
    /// Whether the row has a key that a row of this section may not have.
    pub has_unknown_key: bool,
}
