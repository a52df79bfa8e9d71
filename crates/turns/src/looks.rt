//! How long a worker has found nothing to do.
//!
//! What each turn and each look in vain makes of the counts is exact. When a worker looks has no clause.
ghost use Rattle.std.specs.Prelude.{◌≡◌, ◌⊎◌, ◌↔◌, ◌≤◌, ◌+◌, ◌*◌, ◌/◌, ◌%◌, min, IsTrue};
ghost use Rattle.turns.specs.Meeting.{never};
ghost use Rattle.turns.specs.declared.TheConstants.{FIRST_REST_US, LOOKS_BEFORE_HELP, LOOKS_BEFORE_REST, LOOKS_PER_GVT, MOST_REST_US};

use crate::{FIRST_REST_US, LOOKS_BEFORE_HELP, LOOKS_BEFORE_REST, LOOKS_PER_GVT, MOST_REST_US};

/// How often a worker has looked in vain since a turn, how often it looks in vain before it gives turns to groups of others, and how long it
/// rests next.
#[derive(Clone, Copy)]
pub(crate) struct Looks {
    pub(crate) vain: u64,
    pub(crate) patience: u64,
    /// In microseconds.
    pub(crate) rest_us: u64,
}

impl Looks {
    /// The counts of a worker that has given no turn.
    pub(crate) fn none() -> Self
        ensures { result ≡ record { vain = 0; patience = LOOKS_BEFORE_HELP; rest_us = FIRST_REST_US } }
    {
        Looks {
            vain: 0,
            patience: LOOKS_BEFORE_HELP,
            rest_us: FIRST_REST_US,
        }
    }

    /// Notes that a message was handled for a group of its own.
    pub(crate) fn work(&mut self)
        ensures { self.new ≡ record { vain = 0; patience = min (self.old.patience + 8) LOOKS_BEFORE_HELP; rest_us = FIRST_REST_US } }
    {
        self.vain = 0;
        self.rest_us = FIRST_REST_US;
        self.patience = self.patience.saturating_add(8).min(LOOKS_BEFORE_HELP);
    }

    /// Notes that a message was handled for a group of another worker. The more often that succeeds, the sooner it is tried.
    pub(crate) fn help(&mut self)
        ensures { self.new ≡ record { vain = self.old.patience / 2; patience = self.old.patience / 2; rest_us = FIRST_REST_US } }
    {
        self.patience /= 2;
        self.vain = self.patience;
        self.rest_us = FIRST_REST_US;
    }

    /// Notes that nothing was found to do.
    pub(crate) fn look_in_vain(&mut self)
        ensures { self.new ≡ record self.old { vain = min (self.old.vain + 1) never } }
    {
        self.vain = self.vain.saturating_add(1);
    }

    /// Whether groups of others, whose workers may be off their cores, should get a turn.
    pub(crate) fn are_to_help(&self) -> bool
        ensures { IsTrue result ↔ (self.now.patience ≤ self.now.vain) }
    {
        self.vain >= self.patience
    }

    /// Whether GVT may be set, if the worker waits for it: now and then, and before each rest.
    pub(crate) fn may_publish(&self) -> bool
        ensures { IsTrue result ↔ ((self.now.vain % LOOKS_PER_GVT ≡ 0) ⊎ (LOOKS_BEFORE_REST ≤ self.now.vain)) }
    {
        self.vain % LOOKS_PER_GVT == 0 || self.are_to_rest()
    }

    /// Whether the worker should rest.
    pub(crate) fn are_to_rest(&self) -> bool
        ensures { IsTrue result ↔ (LOOKS_BEFORE_REST ≤ self.now.vain) }
    {
        self.vain >= LOOKS_BEFORE_REST
    }

    /// Returns how long it rests now, at most, in microseconds. The next rest is twice as long.
    pub(crate) fn next_rest_us(&mut self) -> u64
        ensures now { result ≡ self.old.rest_us }
        ensures next { self.new ≡ record self.old { rest_us = min (self.old.rest_us * 2) MOST_REST_US } }
    {
        let rest_us = self.rest_us;
        self.rest_us = rest_us.saturating_mul(2).min(MOST_REST_US);
        rest_us
    }
}
