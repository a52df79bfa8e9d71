//! The network of some rows, with its tables, and the ports at which its virtual links are configured.
#![tactic(auto)]

mod laws;
mod lines;
mod making;
mod routes;
mod tables;

pub use laws::{port_law, rising_law};
pub use making::network_of;
