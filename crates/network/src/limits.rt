//! The greatest size of a network.

/// The greatest number of processes: one for each node, and two for each link.
pub const GREATEST_PROCESSES: usize = 4096;

/// The greatest number of ports of a switch.
pub const GREATEST_PORTS: usize = 24;

/// The greatest number of outages.
pub const GREATEST_OUTAGES: usize = 1024;

/// The greatest number of destinations of a virtual link.
pub const GREATEST_DESTINATIONS: usize = 64;

/// The greatest number of rows of streams.
pub const GREATEST_STREAMS: usize = 65_536;
