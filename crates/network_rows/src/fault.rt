//! Why a description is refused, and where.
use crate::key::{Key, Section};
use std::alloc::{AllocError, AllocFailed};
use thiserror::Error;

/// The place of a fault in a description.
#[derive(Clone, Copy, Debug)]
pub struct Place {
    pub section: Section,
    /// The row of the section, from 1. It is none at the top, and 0 for a section that is not a list.
    pub row: Option<u64>,
    /// The key, or none if the fault concerns the whole row.
    pub key: Option<Key>,
}

/// What is wrong with a key of a row, in the order in which faults are reported.
#[derive(Clone, Copy, Debug, Error)]
pub enum KeyFault {
    /// The key is absent, and the row must have it.
    #[error("missing")]
    Missing,
    /// Its value is of another type.
    #[error("wrong kind")]
    WrongKind,
    /// Its value is of the right type, but outside the limit.
    #[error("out of limit")]
    OutOfLimit,
}

/// Why a text does not describe a network. The faults are numbered 1 to 10 in this order.
#[derive(Clone, Copy, Debug, Error)]
pub enum DescFault {
    /// The text is not a TOML document.
    #[error("syntax")]
    Syntax,
    /// A required key is absent.
    #[error("missing")]
    Missing(Place),
    /// A section is not a list, a row is not a table, or a value is not of the type that its key requires.
    #[error("wrong kind")]
    WrongKind(Place),
    /// A value is outside the limits of its key.
    #[error("out of limit")]
    OutOfLimit(Place),
    /// A key that no row of its section has, or the name of a node that no row has.
    #[error("unknown name")]
    UnknownName(Place),
    /// A name, a number or a pair of nodes that an earlier row already has.
    #[error("double name")]
    DoubleName(Place),
    /// Two nodes that no link joins, or that no link may join.
    #[error("not a link")]
    NotALink(Place),
    /// The paths of a virtual link are not a tree from one source.
    #[error("not a tree")]
    NotATree(Place),
    /// The network has more than a limit allows.
    #[error("too many")]
    TooMany(Place),
    /// Memory was refused.
    #[error("out of memory")]
    OutOfMemory,
}

impl From<AllocError> for DescFault {
    ghost use Rattle.std.specs.Prelude.{◌≡◌};
    ghost use Rattle.network_rows.specs.declared.fault.DescFault.TheVariants.{OutOfMemory};

    ghost from_gives = { λ _ fault. fault ≡ OutOfMemory };

    fn from(_: AllocError) -> Self {
        DescFault::OutOfMemory
    }
}

impl<T: Drop> From<AllocFailed<T>> for DescFault {
    ghost use Rattle.std.specs.Prelude.{◌≡◌};
    ghost use Rattle.network_rows.specs.declared.fault.DescFault.TheVariants.{OutOfMemory};

    ghost from_gives = { λ _ fault. fault ≡ OutOfMemory };

    fn from(_: AllocFailed<T>) -> Self {
        DescFault::OutOfMemory
    }
}
