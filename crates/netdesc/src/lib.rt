//! Network descriptions: which text is accepted, as which network, and the first fault of every other.
#![tactic(auto)]

mod reading;

pub use network::{
    GREATEST_DESTINATIONS, GREATEST_OUTAGES, GREATEST_PORTS, GREATEST_PROCESSES, GREATEST_STREAMS,
    LinePlan, Network, Outage, Way,
};
pub use network_rows::{DescFault, Key, Place, Section};
pub use network_tables::{port_law, rising_law};
pub use reading::read;
pub use row_types::{NodeKind, Policing, Priority, Stream, Timing, VirtualLink};
