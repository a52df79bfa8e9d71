//! The results of a run: tables of latencies and of drops, and their text. It re-exports the names of the trace, so that a user needs one
//! crate.
#![tactic(auto)]

mod cells;
mod deliveries;
mod destination;
mod drops;
mod duplicates;
mod latencies;
mod laws;
mod loss;
mod so_far;
mod tables;
mod text;
mod write;

pub use destination::Destination;
pub use latencies::Latencies;
pub use laws::{drop_counts_law, latency_counts_law, tables_by_place_law};
pub use loss::Loss;
pub use so_far::TablesSoFar;
pub use tables::Tables;
pub use trace_segments::{
    Batch, Gather, OutFault, Segment, SegmentFault, Sink, SinkFault, TraceFault,
    batches_in_order_law, cut, put_in_message_order, rows_by_place_law, segments_of_rows_law,
    width, write_all, write_trace,
};
pub use trace_writer::TraceWriter;
pub use write::write_csv;
