//! The pace of a run by workers.
ghost use Rattle.std.specs.Prelude.{◌≡◌};
ghost use Rattle.worker_pool.specs.Paces.{pace_that_goes};

/// The number of workers, and of groups of processes; the most messages that a group handles in one turn; and the most that a group runs
/// ahead of the GVT that it saw, in ns.
///
/// Any numbers are allowed, and the results of a run are the same for all of them. Without workers the caller's thread gives all turns.
/// There is at least one group, there are never more groups than processes, and no more workers than groups. A turn or a window of 0 counts
/// as one of 1.
#[derive(Clone, Copy)]
pub struct Pace {
    pub workers: u8,
    pub groups: u16,
    pub turn: u16,
    pub window_ns: u64,
}

impl Pace {
    /// Returns the same pace with a turn and a window of at least 1: with 0 no message would ever be handled.
    pub(crate) fn that_goes(self) -> Self
        ensures { result ≡ pace_that_goes self }
    {
        Pace {
            workers: self.workers,
            groups: self.groups,
            turn: self.turn.max(1),
            window_ns: self.window_ns.max(1),
        }
    }
}
