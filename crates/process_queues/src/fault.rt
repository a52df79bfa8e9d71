//! Why a process refuses a call.
use std::alloc::AllocError;
use thiserror::Error;

/// Why a process refused a call, which then left it as it was.
#[derive(Clone, Copy, Debug, Error)]
pub enum ProcFault {
    /// Memory was refused.
    #[error("out of memory")]
    OutOfMemory,
    /// The actor does not have enough numbers left for what one event can send.
    #[error("numbers used up")]
    Exhausted,
}

impl From<AllocError> for ProcFault {
    ghost use Rattle.std.specs.Prelude.{◌≡◌};
    ghost use Rattle.process_queues.specs.declared.fault.ProcFault.TheVariants.{OutOfMemory};

    ghost from_gives = { λ _ fault. fault ≡ OutOfMemory };

    fn from(_: AllocError) -> Self {
        ProcFault::OutOfMemory
    }
}

impl From<antimessages::OutOfMemory> for ProcFault {
    ghost use Rattle.std.specs.Prelude.{◌≡◌};
    ghost use Rattle.process_queues.specs.declared.fault.ProcFault.TheVariants.{OutOfMemory};

    ghost from_gives = { λ _ fault. fault ≡ OutOfMemory };

    fn from(_: antimessages::OutOfMemory) -> Self {
        ProcFault::OutOfMemory
    }
}
