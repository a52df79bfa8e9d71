//! Why a text is not a journal.
use std::alloc::{AllocError, AllocFailed};
use thiserror::Error;

/// Why a text was not read as steps.
#[derive(Clone, Copy, Debug, Error)]
pub enum LinesFault {
    /// The text has more lines than are allowed.
    #[error("too many lines")]
    TooMany,
    /// The line with this number, from 1, is the first that is not the text of a step.
    #[error("line {0} is no step")]
    BadLine(u64),
    /// Memory was refused.
    #[error("out of memory")]
    OutOfMemory,
}

impl From<AllocError> for LinesFault {
    ghost use Rattle.std.specs.Prelude.{◌≡◌};
    ghost use Rattle.journal_text.specs.declared.fault.LinesFault.TheVariants.{OutOfMemory};

    ghost from_gives = { λ _ fault. fault ≡ OutOfMemory };

    fn from(_: AllocError) -> Self {
        LinesFault::OutOfMemory
    }
}

impl<T: Drop> From<AllocFailed<T>> for LinesFault {
    ghost use Rattle.std.specs.Prelude.{◌≡◌};
    ghost use Rattle.journal_text.specs.declared.fault.LinesFault.TheVariants.{OutOfMemory};

    ghost from_gives = { λ _ fault. fault ≡ OutOfMemory };

    fn from(_: AllocFailed<T>) -> Self {
        LinesFault::OutOfMemory
    }
}
