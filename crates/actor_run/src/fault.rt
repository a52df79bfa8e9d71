//! Why a one-thread run is given up.
use std::alloc::{AllocError, AllocFailed};
use thiserror::Error;

/// Why a run was given up.
#[derive(Clone, Copy, Debug, Error)]
pub enum SimFault {
    /// Memory was refused.
    #[error("out of memory")]
    OutOfMemory,
    /// The actor that is next does not have enough numbers left for what one event can send.
    #[error("numbers used up")]
    Exhausted,
}

impl From<AllocError> for SimFault {
    ghost use Rattle.std.specs.Prelude.{◌≡◌};
    ghost use Rattle.actor_run.specs.declared.fault.SimFault.TheVariants.{OutOfMemory};

    ghost from_gives = { λ _ fault. fault ≡ OutOfMemory };

    fn from(_: AllocError) -> Self {
        SimFault::OutOfMemory
    }
}

impl<T: Drop> From<AllocFailed<T>> for SimFault {
    ghost use Rattle.std.specs.Prelude.{◌≡◌};
    ghost use Rattle.actor_run.specs.declared.fault.SimFault.TheVariants.{OutOfMemory};

    ghost from_gives = { λ _ fault. fault ≡ OutOfMemory };

    fn from(_: AllocFailed<T>) -> Self {
        SimFault::OutOfMemory
    }
}
