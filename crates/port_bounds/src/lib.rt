//! Worst-case bounds of an output port: how long a frame waits there, and how many bytes wait, from what can arrive. No product code.
#![tactic(auto)]

mod arrivals;
mod delays;
mod starts;
mod waits;

pub use arrivals::arrivals_law;
pub use delays::delays_law;
pub use starts::starts_law;
pub use waits::waits_law;
