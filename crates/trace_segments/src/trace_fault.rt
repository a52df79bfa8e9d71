//! Why a trace was not written.
use crate::fault::OutFault;
use crate::segment_fault::SegmentFault;
use thiserror::Error;

/// Why a trace was not written.
#[derive(Clone, Copy, Debug, Error)]
pub enum TraceFault {
    /// The batches do not follow each other.
    #[error("{0}")]
    Segment(SegmentFault),
    /// The text was not written whole.
    #[error("{0}")]
    Out(OutFault),
}
