//! Why a group refuses a call.
use antimessages::OutOfMemory;
use std::alloc::AllocError;
use thiserror::Error;

/// Why a group refused a call.
#[derive(Clone, Copy, Debug, PartialEq, Eq, Error)]
pub enum HandFault {
    /// Memory was refused.
    #[error("out of memory")]
    OutOfMemory,
    /// The actor that is next does not have enough numbers left for what one event can send.
    #[error("numbers used up")]
    Exhausted,
}

impl From<AllocError> for HandFault {
    ghost use Rattle.std.specs.Prelude.{◌≡◌};
    ghost use Rattle.group_hand.specs.declared.fault.HandFault.TheVariants.{OutOfMemory};

    ghost from_gives = { λ _ fault. fault ≡ OutOfMemory };

    fn from(_: AllocError) -> Self {
        HandFault::OutOfMemory
    }
}

impl From<OutOfMemory> for HandFault {
    ghost use Rattle.std.specs.Prelude.{◌≡◌};
    ghost use Rattle.group_hand.specs.declared.fault.HandFault.TheVariants.{OutOfMemory};

    ghost from_gives = { λ _ fault. fault ≡ OutOfMemory };

    fn from(_: OutOfMemory) -> Self {
        HandFault::OutOfMemory
    }
}
