//! The writing of a trace to which a writer belongs.
use std::marker::Brand;

/// The writing of a run's trace, identified by its type: what its sink had taken when the run began, and how many writes had failed there.
/// It has no bytes. The caller chooses both at `Brand`.
pub trait TraceRun {
    ghost use Rattle.std.specs.Prelude.{ℕ, List, Option};

    /// The bytes that the sink had taken, or none if that is not known.
    ghost taken: { Option (List ℕ) };

    /// How many writes had failed.
    ghost failures: { ℕ };
}

impl TraceRun for Brand {
    ghost use Rattle.std.specs.Prelude.{None};

    ghost taken = { None };

    ghost failures = { 0 };
}
