//! Why a segment of the trace is not taken.
use std::alloc::AllocError;
use thiserror::Error;

/// Why a segment of the trace, or a batch, is not taken.
#[derive(Clone, Copy, Debug, Error)]
pub enum SegmentFault {
    /// The segment begins after the end of the last one, or does not end where it should.
    #[error("rows of the trace are missing")]
    Gap,
    /// The segment begins before the end of the last one.
    #[error("rows of the trace come twice")]
    Double,
    /// The segment is of another run, or its process does not exist.
    #[error("rows of another run or of no process")]
    Stranger,
    /// Memory was refused.
    #[error("out of memory")]
    OutOfMemory,
}

impl From<AllocError> for SegmentFault {
    ghost use Rattle.std.specs.Prelude.{◌≡◌};
    ghost use Rattle.trace_segments.specs.declared.segment_fault.SegmentFault.TheVariants.{OutOfMemory};

    ghost from_gives = { λ _ fault. fault ≡ OutOfMemory };

    fn from(_: AllocError) -> Self {
        SegmentFault::OutOfMemory
    }
}
