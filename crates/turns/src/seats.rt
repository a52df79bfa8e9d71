//! The groups of a run, each with a lock of its own.
ghost use Rattle.std.specs.Prelude.{◌≡◌, IfOk, length};

use crate::apart::Apart;
use crate::seat::Seat;
use std::alloc::{AllocError, Global};
use std::sync::{Mutex, MutexGuard};

/// The groups of a run, in order. The thread that gives a group a turn holds its lock meanwhile, and nobody waits for it.
#[derive(Drop)]
pub(crate) struct Seats<G> {
    seats: Vec<Apart<Mutex<Seat<G>>>>,
}

impl<G: Drop> Seats<G> {
    /// Makes the seats of these groups. Only memory can be refused.
    pub(crate) fn of(alloc: Global, groups: Vec<G>) -> Result<Self, AllocError>
        ensures all { IfOk result (λ seats. length seats.seats.items ≡ length groups.items) }
    {
        let mut seats = Vec::with_capacity(alloc, groups.len())?;
        for group in groups {
            seats.push(Apart::new(Mutex::new(Seat::new(group))))?;
        }
        Ok(Seats { seats })
    }

    /// Returns a group, if it exists and no other thread holds it.
    pub(crate) fn try_take(&self, group: usize) -> Option<MutexGuard<'_, Seat<G>>> {
        match self.seats.get(group) {
            Some(seat) => seat.value.try_lock(),
            None => None,
        }
    }

    /// Returns the groups, in order. Only memory can be refused.
    pub(crate) fn into_groups(self, alloc: Global) -> Result<Vec<G>, AllocError>
        ensures all { IfOk result (λ groups. length groups.items ≡ length self.seats.items) }
    {
        let Seats { seats } = self;
        let mut groups = Vec::with_capacity(alloc, seats.len())?;
        for seat in seats {
            let Seat { group, .. } = seat.into_inner().into_inner();
            groups.push(group)?;
        }
        Ok(groups)
    }
}
