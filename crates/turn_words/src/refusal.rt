//! Why a run is refused.
ghost use Rattle.std.specs.Prelude.{◌≡◌, ℕ};

/// Why a run is refused. Each fault has a number: of several, the one with the least is returned.
pub trait Refusal: Drop {
    /// The number of a fault.
    ghost rank: { Self → ℕ };

    /// The fault is lack of memory.
    ghost is_memory: { Self → Type 0 };

    /// The fault is that a worker could not be started.
    ghost is_unstarted: { Self → Type 0 };

    /// Returns its number.
    fn number(&self) -> u8
        ensures { result ≡ rank self.now };

    /// Makes the fault for lack of memory.
    fn memory() -> Self
        ensures { is_memory result };

    /// Makes the fault for a worker that could not be started.
    fn unstarted() -> Self
        ensures { is_unstarted result };
}
