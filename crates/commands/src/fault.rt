//! Why the program ends before it has done its order.
ghost use Rattle.std.specs.Prelude.{◌≡◌, ◌⊎◌};
ghost use Rattle.commands.specs.Telling.{status_of};

use journal::PoolFault;
use netdesc::DescFault;
use seqsim::SimFault;
use std::alloc::AllocError;
use thiserror::Error;

/// The status if all was done.
pub const DONE: u8 = 0;

/// The status of bad words.
pub const BAD_WORDS: u8 = 2;

/// Why the program ends before it has done its order.
#[derive(Clone, Copy, Debug, Error)]
pub enum Fault<'a> {
    /// The description of the network has this fault.
    #[error("description: {0}")]
    Description(DescFault),
    /// The line with this number, from 1, is the first of a journal that is not the text of a step.
    #[error("journal line {0}")]
    JournalLine(u64),
    /// A journal has more lines than are allowed, or a run by workers more steps.
    #[error("journal full")]
    JournalFull,
    /// The file with this path cannot be read.
    #[error("cannot read {0}")]
    CannotRead(&'a str),
    /// The file with this path cannot be created or written.
    #[error("cannot write {0}")]
    CannotWriteFile(&'a str),
    /// Standard output cannot be written.
    #[error("cannot write")]
    CannotWrite,
    /// The library that lays out rows failed, though memory was not refused.
    #[error("cannot lay out rows")]
    Layout,
    /// Memory was refused.
    #[error("out of memory")]
    OutOfMemory,
    /// A process does not have enough numbers left for what one event can send.
    #[error("numbers used up")]
    Exhausted,
    /// A worker could not be started.
    #[error("cannot start a worker")]
    Spawn,
    /// Rows of the trace of a run by workers are missing or come twice, or left a process and were not counted.
    #[error("torn")]
    Torn,
}

impl Fault<'_> {
    /// Returns the status with which the program ends.
    pub fn status(&self) -> u8
        ensures value { result ≡ status_of self.now }
        ensures known { (result ≡ 3) ⊎ (result ≡ 4) ⊎ (result ≡ 5) }
    {
        match self {
            Fault::Description(DescFault::OutOfMemory) => 5,
            Fault::Description(_) => 3,
            Fault::JournalLine(_) => 3,
            Fault::JournalFull => 5,
            Fault::CannotRead(_) => 4,
            Fault::CannotWriteFile(_) => 4,
            Fault::CannotWrite => 4,
            Fault::Layout => 5,
            Fault::OutOfMemory => 5,
            Fault::Exhausted => 5,
            Fault::Spawn => 4,
            Fault::Torn => 5,
        }
    }
}

impl From<DescFault> for Fault<'_> {
    ghost use Rattle.std.specs.Prelude.{◌≡◌};
    ghost use Rattle.commands.specs.declared.fault.Fault.TheVariants.{Description};

    ghost from_gives = { λ it fault. fault ≡ Description it };

    fn from(it: DescFault) -> Self {
        Fault::Description(it)
    }
}

impl From<AllocError> for Fault<'_> {
    ghost use Rattle.std.specs.Prelude.{◌≡◌};
    ghost use Rattle.commands.specs.declared.fault.Fault.TheVariants.{OutOfMemory};

    ghost from_gives = { λ _ fault. fault ≡ OutOfMemory };

    fn from(_: AllocError) -> Self {
        Fault::OutOfMemory
    }
}

impl From<SimFault> for Fault<'_> {
    ghost use Rattle.std.specs.Prelude.{◌≡◌};
    ghost use Rattle.commands.specs.Sequencing.{fault_of_run};

    ghost from_gives = { λ it fault. fault ≡ fault_of_run it };

    fn from(it: SimFault) -> Self {
        match it {
            SimFault::OutOfMemory => Fault::OutOfMemory,
            SimFault::Exhausted => Fault::Exhausted,
        }
    }
}

impl From<PoolFault> for Fault<'_> {
    ghost use Rattle.std.specs.Prelude.{◌≡◌};
    ghost use Rattle.commands.specs.Sequencing.{fault_of_pool};

    ghost from_gives = { λ it fault. fault ≡ fault_of_pool it };

    fn from(it: PoolFault) -> Self {
        match it {
            PoolFault::OutOfMemory => Fault::OutOfMemory,
            PoolFault::Exhausted => Fault::Exhausted,
            PoolFault::JournalFull => Fault::JournalFull,
            PoolFault::Spawn => Fault::Spawn,
            PoolFault::Torn => Fault::Torn,
        }
    }
}
