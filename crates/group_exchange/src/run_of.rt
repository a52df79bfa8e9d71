//! The run to which an exchange and its groups belong.
use reverse::Actor;

/// A run of actors by groups, identified by its type: a `GroupExchange` and its `Group`s, which have it as a parameter, belong to one run.
/// It has no bytes.
pub trait GroupRun<R: Actor> {
    ghost use Rattle.std.specs.Prelude.{ℕ, Bool, List};
    ghost use Rattle.reverse.specs.Setting.{Setting};

    /// What is simulated.
    ghost setting: { Setting R };

    /// Whether the steps of its journal are stored, to be read at its end.
    ghost keeps: { Bool };

    /// The names of the marks, one for each group.
    ghost names: { List ℕ };

    /// For each process the number of its group.
    ghost owners: { List ℕ };
}
