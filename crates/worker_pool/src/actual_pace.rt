//! The pace at which a run went.
ghost use Rattle.std.specs.Prelude.{◌≡◌, length};
ghost use Rattle.worker_pool.specs.Paces.{pace_of};

use crate::ending::Unlocked;
use network_runs::NetworkRun;
use std::marker::Model;

/// The number of workers of a run and of its groups, and its turn and window. Only a run by workers makes one: from its groups, once they
/// have come back, and from what its threads went by.
///
/// Clauses see it as a pace.
#[derive(Drop)]
pub struct ActualPace {
    workers: usize,
    groups: usize,
    turn: u32,
    window_ns: u64,
}

impl Model for ActualPace {
    ghost use Rattle.worker_pool.specs.declared.pace.Pace.{Pace};

    ghost Value = { Pace };

    ghost view = { λ p. record { workers = p.workers; groups = p.groups; turn = p.turn; window_ns = p.window_ns } };
}

impl ActualPace {
    /// Returns the number of workers.
    pub fn workers(&self) -> usize
        ensures { result ≡ self.now.workers }
    {
        self.workers
    }

    /// Returns the number of groups.
    pub fn groups(&self) -> usize
        ensures { result ≡ self.now.groups }
    {
        self.groups
    }
}

impl<J: NetworkRun> Unlocked<'_, J> {
    /// Returns the pace at which the run went.
    pub(crate) fn pace(&self) -> ActualPace
        ensures { result ≡ pace_of self.now.speed (length self.now.groups.items) }
    {
        ActualPace {
            workers: self.speed.workers,
            groups: self.groups.len(),
            turn: self.speed.turn,
            window_ns: self.speed.window_ns,
        }
    }
}
