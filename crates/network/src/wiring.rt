//! What joins nodes: links, lines and hops, and the ports at which virtual links pass nodes.

use vlink::VlId;

/// A link between two nodes, which are given by their places. It carries frames in both directions.
#[derive(Clone, Copy)]
pub struct Link {
    pub a: usize,
    pub b: usize,
    /// The time on the wire of one byte, in ns.
    pub byte_ns: u16,
    /// The propagation time of the link, in ns.
    pub propagation_ns: u32,
}

/// An interval in which the direction of a link from one node to another loses frames.
#[derive(Clone, Copy)]
pub struct Outage {
    pub from: usize,
    pub to: usize,
    /// Its first moment, in ns.
    pub from_ns: u64,
    /// The moment after its last one, in ns.
    pub to_ns: u64,
}

/// A step from one node of a path to the next.
#[derive(Clone, Copy)]
pub struct Hop {
    pub from: usize,
    pub to: usize,
}

/// One direction of a link.
#[derive(Clone, Copy)]
pub struct LinePlan {
    /// The number of the node that it leads out of, and its port there.
    pub from: u16,
    pub from_port: u16,
    /// The number of the node that it leads to, and its port there.
    pub to: u16,
    pub to_port: u16,
    /// The time on the wire of one byte, in ns.
    pub byte_ns: u16,
    /// The propagation time of the line, in ns.
    pub propagation_ns: u32,
}

/// A virtual link at a port of a node.
#[derive(Clone, Copy)]
pub struct Way {
    pub vl: VlId,
    pub port: u16,
}
