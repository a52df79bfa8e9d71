//! Moments, in ns.
ghost use Rattle.std.specs.Prelude.{◌≡◌, ℕ, ◌≤◌, ◌↔◌, IsSome, IfSome, min};
ghost use Rattle.vlink.specs.Moment.{latest_end, greatest_moment};

use std::marker::Model;

/// The latest end time of a run, in ns.
pub const LATEST_NS: u64 = 1_000_000_000_000_000;

/// The greatest moment, in ns: the one after the latest end time.
pub const GREATEST_NS: u64 = LATEST_NS + 1;

/// The constants for moments are the numbers that the rules state.
pub fn moment_limits_law()
    ensures latest { LATEST_NS ≡ latest_end }
    ensures greatest { GREATEST_NS ≡ greatest_moment }
{}

/// A moment in simulated nanoseconds, from 0 to `GREATEST_NS`.
///
/// Clauses see it as its number of nanoseconds.
#[derive(Clone, Copy, PartialEq, Eq, PartialOrd, Ord)]
pub struct Time {
    ns: u64,
}

impl Model for Time {
    ghost use Rattle.std.specs.Prelude.{ℕ, ◌≤◌};
    ghost use Rattle.vlink.specs.declared.time.TheConstants.{GREATEST_NS};

    ghost Value = { ℕ };

    ghost view = { λ t. t.ns };

    ghost invariant = { λ t. t.ns ≤ GREATEST_NS };

    ghost inverse = { λ n. record { ns = n } };
}

impl Time {
    /// Returns the moment at `ns` nanoseconds, or none beyond the greatest.
    pub fn new(ns: u64) -> Option<Self>
        ensures within { IsSome result ↔ (ns ≤ GREATEST_NS) }
        ensures value { IfSome result (λ t. t ≡ ns) }
    {
        if ns <= GREATEST_NS {
            Some(Time { ns })
        } else {
            None
        }
    }

    /// Returns the moment at `ns` nanoseconds, or none after `last`. Since `last` is a moment, no other limit needs a comparison.
    #[inline(always)]
    pub fn until(ns: u64, last: Time) -> Option<Self>
        ensures within { IsSome result ↔ (ns ≤ last) }
        ensures value { IfSome result (λ t. t ≡ ns) }
    {
        if ns <= last.ns {
            Some(Time { ns })
        } else {
            None
        }
    }

    /// Returns the moment at `ns` nanoseconds, which the caller knows to be one.
    #[inline(always)]
    pub fn of_known(ns: u64) -> Self
        requires { ns ≤ GREATEST_NS }
        ensures { result ≡ ns }
    {
        Time { ns }
    }

    /// Returns the moment in nanoseconds.
    pub fn ns(self) -> u64
        ensures value { result ≡ self }
        ensures within { self ≤ GREATEST_NS }
    {
        self.ns
    }
}

/// Returns the earlier of two moments.
#[inline(always)]
pub fn earlier(first: Time, second: Time) -> Time
    ensures { result ≡ min first second }
{
    if first.ns <= second.ns { first } else { second }
}

impl Default for Time {
    ghost is_default = { λ t. t ≡ 0 };

    fn default() -> Self {
        Time { ns: 0 }
    }
}
