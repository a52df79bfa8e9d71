//! A network: its contents, the tables that answer questions by number, and what follows from them.
#![tactic(auto)]

mod limits;
mod network;
mod plan;
mod tables;
mod wiring;

pub use limits::{
    GREATEST_DESTINATIONS, GREATEST_OUTAGES, GREATEST_PORTS, GREATEST_PROCESSES, GREATEST_STREAMS,
};
pub use network::Network;
pub use plan::{Numbered, Routed, VlStream, source_among};
pub use row_types::{NodeKind, NodeRow, Policing, Priority, Stream, Timing, VirtualLink};
pub use tables::{Meetings, Tables};
pub use wiring::{Hop, LinePlan, Link, Outage, Way};
