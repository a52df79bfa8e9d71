//! The run to which an exchange and its processes belong.
use reverse::Actor;

/// A run of actors, identified by its type: an `Exchange` and its `Held`s, which have it as a parameter, belong to one run. It has no
/// bytes.
pub trait ActorRun<R: Actor> {
    ghost use Rattle.std.specs.Prelude.{ℕ, Bool, List};
    ghost use Rattle.reverse.specs.Setting.{Setting};

    /// What is simulated.
    ghost setting: { Setting R };

    /// Whether the entries of its journal are stored, to be read at its end.
    ghost keeps: { Bool };

    /// The names of the marks, one for each process.
    ghost names: { List ℕ };
}
