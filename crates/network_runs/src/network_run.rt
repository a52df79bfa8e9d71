//! The run of a network to which a value belongs.
use std::marker::Brand;

/// A run of a network, known by its type: its network, whether its journal is kept, its marks and its groups. It takes no bytes. The caller
/// at `Brand` chooses all of them.
pub trait NetworkRun {
    ghost use Rattle.std.specs.Prelude.{ℕ, Bool, List};
    ghost use Rattle.network.specs.Words.{Plan};

    /// The network that is simulated.
    ghost plan: { Plan };

    /// Whether the entries of its journal are kept, to be listed at its end.
    ghost keeps: { Bool };

    /// The names of the marks, one for each process of an exchange of processes, and one for each group of a run.
    ghost names: { List ℕ };

    /// For each process the number of its group.
    ghost owners: { List ℕ };
}

impl NetworkRun for Brand {
    ghost use Rattle.std.specs.Prelude.{[], false};
    ghost use Rattle.network_runs.specs.Empty.{empty_plan};

    ghost plan = { empty_plan };

    ghost keeps = { false };

    ghost names = { [] };

    ghost owners = { [] };
}
