//! What a worker does with a group.
ghost use Rattle.std.specs.Prelude.{ℕ, ◌<◌, ◌≤◌, IfOk};

use crate::moments::Moments;
use crate::report::Report;
use crate::seat::Seat;
use turn_words::{Refusal, TurnRun};

/// What a worker does with a group that it holds. This crate decides when it does which.
pub trait Tasks<G> {
    /// Why a run is refused.
    type Fault: Refusal;

    /// The run to which the groups belong.
    type Run: TurnRun;

    /// The group handled so many messages, at most `most`, no further ahead of the GVT that it saw than so many ns.
    ghost handles: { G → G → ℕ → ℕ → ℕ → Type 0 };

    /// A look at the group changed nothing.
    ghost stays: { G → G → Type 0 };

    /// Returns how far a group is.
    fn report(&self, seat: &Seat<G>) -> Report
        ensures within { result.number < Self.Run.groups };

    /// Returns the moment of its next event, in ns, or the greatest number if it has none.
    fn next_ns(&self, group: &mut G) -> u64
        ensures { stays group.old group.new };

    /// The group handles at most `most` messages, which are no further ahead of the GVT that it saw than `ahead_ns`, in ns. Returns how
    /// many.
    fn handle(&self, group: &mut G, most: u32, ahead_ns: u64) -> Result<u32, Self::Fault>
        ensures few { IfOk result (λ count. count ≤ most) }
        ensures handled { IfOk result (λ count. handles group.old group.new most ahead_ns count) };

    /// In one section of the exchange the group posts what it did, and its letters go to the other groups and are listed: for each group
    /// the least moment is lowered, in ns. Then its own letters come to it. In between GVT is set, if the group waits for it or it is time.
    /// Returns the least moment of the letters that came, in ns.
    fn meet(
        &self,
        group: &mut G,
        waits: bool,
        moments: &Moments,
        letters_ns: &mut [u64],
    ) -> Result<u64, Self::Fault>;

    /// Sets GVT, if no other thread is at the exchange. Returns whether it changed.
    fn publish(&self, moments: &Moments) -> Result<bool, Self::Fault>;

    /// Lets what can no longer change leave the group. The caller does not have the lock of the exchange.
    fn let_go(&self, group: &mut G) -> Result<(), Self::Fault>;
}
