//! Writes a trace batch by batch, into a sink that may fail.
#![tactic(auto)]

mod writer;

pub use writer::TraceWriter;
