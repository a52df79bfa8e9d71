//! Why a world refuses a step or a call.
use process_queues::ProcFault;
use std::alloc::{AllocError, AllocFailed};
use thiserror::Error;

/// Why a step, or a call on a world, was refused. The world is as it was before.
#[derive(Clone, Copy, Debug, PartialEq, Eq, Error)]
pub enum StepFault {
    /// The step names a process that does not exist.
    #[error("no such process")]
    NoProcess,
    /// Memory was refused.
    #[error("out of memory")]
    OutOfMemory,
    /// The actor of the process does not have enough numbers left for what one event can send.
    #[error("numbers used up")]
    Exhausted,
}

impl From<AllocError> for StepFault {
    ghost use Rattle.std.specs.Prelude.{◌≡◌};
    ghost use Rattle.actor_world.specs.declared.fault.StepFault.TheVariants.{OutOfMemory};

    ghost from_gives = { λ _ fault. fault ≡ OutOfMemory };

    fn from(_: AllocError) -> Self {
        StepFault::OutOfMemory
    }
}

impl<T: Drop> From<AllocFailed<T>> for StepFault {
    ghost use Rattle.std.specs.Prelude.{◌≡◌};
    ghost use Rattle.actor_world.specs.declared.fault.StepFault.TheVariants.{OutOfMemory};

    ghost from_gives = { λ _ fault. fault ≡ OutOfMemory };

    fn from(_: AllocFailed<T>) -> Self {
        StepFault::OutOfMemory
    }
}

impl From<antimessages::OutOfMemory> for StepFault {
    ghost use Rattle.std.specs.Prelude.{◌≡◌};
    ghost use Rattle.actor_world.specs.declared.fault.StepFault.TheVariants.{OutOfMemory};

    ghost from_gives = { λ _ fault. fault ≡ OutOfMemory };

    fn from(_: antimessages::OutOfMemory) -> Self {
        StepFault::OutOfMemory
    }
}

impl From<ProcFault> for StepFault {
    ghost use Rattle.std.specs.Prelude.{◌≡◌};
    ghost use Rattle.actor_world.specs.Faults.{fault_of};

    ghost from_gives = { λ refusal fault. fault ≡ fault_of refusal };

    fn from(fault: ProcFault) -> Self {
        match fault {
            ProcFault::OutOfMemory => StepFault::OutOfMemory,
            ProcFault::Exhausted => StepFault::Exhausted,
        }
    }
}
