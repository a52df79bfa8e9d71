//! Why a text was not written.
use std::alloc::AllocError;
use thiserror::Error;

/// A sink refused bytes.
#[derive(Clone, Copy, Debug, Error)]
#[error("cannot write")]
pub struct SinkFault;

/// Why a text was not written whole.
#[derive(Clone, Copy, Debug, Error)]
pub enum OutFault {
    /// The sink failed. What was written is a beginning of the text.
    #[error("cannot write")]
    Device,
    /// Memory was refused. Nothing was written.
    #[error("out of memory")]
    OutOfMemory,
    /// The writer of rows over a text in memory failed, and its error is not lack of memory. Nothing was written. No cause of this fault is
    /// known.
    #[error("cannot lay out rows")]
    Layout,
}

impl From<AllocError> for OutFault {
    ghost use Rattle.std.specs.Prelude.{◌≡◌};
    ghost use Rattle.trace_segments.specs.declared.fault.OutFault.TheVariants.{OutOfMemory};

    ghost from_gives = { λ _ fault. fault ≡ OutOfMemory };

    fn from(_: AllocError) -> Self {
        OutFault::OutOfMemory
    }
}

impl From<SinkFault> for OutFault {
    ghost use Rattle.std.specs.Prelude.{◌≡◌};
    ghost use Rattle.trace_segments.specs.declared.fault.OutFault.TheVariants.{Device};

    ghost from_gives = { λ _ fault. fault ≡ Device };

    fn from(_: SinkFault) -> Self {
        OutFault::Device
    }
}
