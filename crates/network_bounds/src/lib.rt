//! Worst-case bounds of a network: how long a frame takes at most to each destination, and how many bytes wait at each port.
#![tactic(auto)]

mod ages;
mod choosing;
mod curves;
mod delays;
mod filling;
mod mixing;
mod passing;
mod port;
mod reason;
mod share;
mod sizes;
mod text;
mod waits;
mod write;

pub use delays::PortBound;
pub use reason::Reason;
pub use sizes::Senders;
pub use write::write_bounds;
