//! What all workers of a run share.
ghost use Rattle.std.specs.Prelude.{◌≡◌, IfOk, length, min};

use crate::seats::Seats;
use crate::signals::Signals;
use std::alloc::{AllocError, Global};
use vlink::Time;

/// What all workers of a run share.
#[derive(Drop)]
pub struct Common<G, K> {
    /// The number of workers.
    pub workers: usize,
    /// The number of groups.
    pub groups: usize,
    /// The most messages that a group handles in a turn.
    pub turn: u32,
    /// The most that a group runs ahead of the GVT that it saw, in ns.
    pub window_ns: u64,
    pub(crate) seats: Seats<G>,
    pub(crate) signals: Signals,
    /// What they do with a group.
    pub tasks: K,
    ghost seated: { length seats.seats.items ≡ groups },
}

impl<G: Drop, K: Drop> Common<G, K> {
    /// Makes the shared state before any turn. It has as many workers as are asked for, but no more than groups. Only memory can be
    /// refused.
    pub fn of(
        alloc: Global,
        groups: Vec<G>,
        until: Time,
        workers: u8,
        turn: u16,
        window_ns: u64,
        tasks: K,
    ) -> Result<Self, AllocError>
        ensures workers { IfOk result (λ common. common.workers ≡ min (length groups.items) workers) }
        ensures groups { IfOk result (λ common. common.groups ≡ length groups.items) }
        ensures turn { IfOk result (λ common. common.turn ≡ turn) }
        ensures window { IfOk result (λ common. common.window_ns ≡ window_ns) }
    {
        let count = groups.len();
        let workers = count.min(usize::from(workers));
        match seated(alloc, until, groups, workers) {
            Ok((signals, seats)) => Ok(Common {
                workers,
                groups: count,
                turn: u32::from(turn),
                window_ns,
                seats,
                signals,
                tasks,
            }),
            Err(fault) => {
                drop(tasks);
                Err(fault)
            }
        }
    }

    /// Returns the groups, in order, and what was done with them. Only memory can be refused.
    pub fn into_groups(self, alloc: Global) -> Result<(Vec<G>, K), AllocError>
        ensures all { IfOk result (λ r. length r.0.items ≡ self.groups) }
        ensures tasks { IfOk result (λ r. r.1 ≡ self.tasks) }
    {
        let Common {
            seats,
            signals,
            tasks,
            ..
        } = self;
        drop(signals);
        match seats.into_groups(alloc) {
            Ok(groups) => Ok((groups, tasks)),
            Err(fault) => {
                drop(tasks);
                Err(fault)
            }
        }
    }
}

/// What the workers announce to one another of these groups, of which none has had a turn, and their seats. It is refused for memory alone.
fn seated<G: Drop>(
    alloc: Global,
    until: Time,
    groups: Vec<G>,
    workers: usize,
) -> Result<(Signals, Seats<G>), AllocError>
    ensures all { IfOk result (λ r. length r.1.seats.items ≡ length groups.items) }
{
    let count = groups.len();
    let seats = Seats::of(alloc, groups)?;
    match Signals::new(alloc, count, workers, until) {
        Ok(signals) => Ok((signals, seats)),
        Err(fault) => {
            drop(seats);
            Err(fault)
        }
    }
}
