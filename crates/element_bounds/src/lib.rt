//! What regulators, accounts and output ports contribute to worst-case bounds. No product code.
#![tactic(auto)]

mod passages;
mod port_trace;
mod releases;

pub use passages::passages_law;
pub use port_trace::port_trace_law;
pub use releases::spacing_law;
