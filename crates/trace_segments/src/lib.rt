//! The trace of a run: its rows in order, its segments by process and interval, and its text, whole or in parts.
#![tactic(auto)]

mod batch;
mod fault;
mod gather;
mod gather_laws;
mod interval;
mod interval_laws;
mod known;
mod layout;
pub mod line;
mod naming;
mod ordering;
mod queue;
mod row_laws;
mod segment;
mod segment_fault;
mod sink;
mod trace;
mod trace_fault;
mod waiting;
mod write;

pub use batch::Batch;
pub use fault::{OutFault, SinkFault};
pub use gather::Gather;
pub use gather_laws::segments_of_rows_law;
pub use interval::{cut, width};
pub use interval_laws::batches_in_order_law;
pub use known::is_in_network;
pub use naming::{cause_name, place_name};
pub use ordering::put_in_message_order;
pub use row_laws::rows_by_place_law;
pub use segment::Segment;
pub use segment_fault::SegmentFault;
pub use sink::{Sink, write_all};
pub use trace_fault::TraceFault;
pub use write::{next_bytes, write_trace};
