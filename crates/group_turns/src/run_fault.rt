//! A fault of a run.
ghost use Rattle.std.specs.Prelude.{◌≡◌, ◌≢◌};
ghost use Rattle.journal.specs.declared.fault.PoolFault.TheVariants.{Exhausted, JournalFull, Torn};
ghost use Rattle.group_turns.specs.Limit.{TakesMany};
ghost use Rattle.group_turns.specs.Numbers.{UsesUpNumbers};

use journal::PoolFault;
use network_runs::NetworkRun;
use std::alloc::AllocError;
use std::marker::{Model, PhantomData};
use turn_words::Refusal;

/// Why a run of a network is refused. By its type it is `Exhausted` only if some run of the network uses up numbers, `JournalFull` only if the
/// network can take more steps than the journal of a run can have, and it is never `Torn`.
///
/// Clauses see it as the fault.
#[derive(Drop)]
pub struct RunFault<J: NetworkRun> {
    fault: PoolFault,
    of: PhantomData<J>,
}

impl<J: NetworkRun> Model for RunFault<J> {
    ghost use Rattle.std.specs.Prelude.{◌≡◌, ◌≢◌};
    ghost use Rattle.journal.specs.declared.fault.PoolFault.{PoolFault};
    ghost use Rattle.journal.specs.declared.fault.PoolFault.TheVariants.{Exhausted, JournalFull, Torn};
    ghost use Rattle.group_turns.specs.Limit.{TakesMany};
    ghost use Rattle.group_turns.specs.Numbers.{UsesUpNumbers};

    ghost Value = { PoolFault };

    ghost view = { λ f. f.fault };

    ghost invariant = { λ f. (f.fault ≡ Exhausted → UsesUpNumbers J.plan) × (f.fault ≢ Torn) × (f.fault ≡ JournalFull → TakesMany J.plan J.keeps) };
}

impl<J: NetworkRun> RunFault<J> {
    /// Makes a fault of the run.
    pub fn new(fault: PoolFault) -> Self
        requires numbers { fault ≡ Exhausted → UsesUpNumbers J.plan }
        requires no_torn { fault ≢ Torn }
        requires many { fault ≡ JournalFull → TakesMany J.plan J.keeps }
        ensures { result ≡ fault }
    {
        RunFault {
            fault,
            of: PhantomData,
        }
    }

    /// Makes a fault that is none of `Exhausted`, `JournalFull` and `Torn`.
    pub fn other(fault: PoolFault) -> Self
        requires enough { fault ≢ Exhausted }
        requires no_torn { fault ≢ Torn }
        requires few { fault ≢ JournalFull }
        ensures { result ≡ fault }
    {
        RunFault::new(fault)
    }
}

impl<J: NetworkRun> Refusal for RunFault<J> {
    ghost use Rattle.journal.specs.declared.fault.PoolFault.TheVariants.{OutOfMemory, Spawn};
    ghost use Rattle.journal.specs.Faults.{fault_number};

    ghost rank = { fault_number };

    ghost is_memory = { λ fault. fault ≡ OutOfMemory };

    ghost is_unstarted = { λ fault. fault ≡ Spawn };

    fn number(&self) -> u8 {
        self.fault.number()
    }

    fn memory() -> Self {
        RunFault::other(PoolFault::OutOfMemory)
    }

    fn unstarted() -> Self {
        RunFault::other(PoolFault::Spawn)
    }
}

impl<J: NetworkRun> From<AllocError> for RunFault<J> {
    ghost use Rattle.journal.specs.declared.fault.PoolFault.TheVariants.{OutOfMemory};

    ghost from_gives = { λ _ fault. fault ≡ OutOfMemory };

    fn from(_: AllocError) -> Self {
        RunFault::other(PoolFault::OutOfMemory)
    }
}

impl<J: NetworkRun> From<RunFault<J>> for PoolFault {
    ghost from_gives = { λ run fault. (fault ≡ run) × (fault ≡ Exhausted → UsesUpNumbers J.plan) × (fault ≢ Torn) × (fault ≡ JournalFull → TakesMany J.plan J.keeps) };

    fn from(run: RunFault<J>) -> Self {
        run.fault
    }
}
