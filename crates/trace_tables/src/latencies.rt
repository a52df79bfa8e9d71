//! The latencies of one virtual link at one destination.
ghost use Rattle.std.specs.Prelude.{◌≡◌, ◌-◌, ◌^◌, ◌<◌, []};
ghost use Rattle.trace_tables.specs.Latencies.{counts_of, with_latency};

use std::marker::Model;

/// How many frames arrived, and their latencies in ns. All numbers are 0 if none arrived.
///
/// Clauses see it as its four numbers.
#[derive(Clone, Copy)]
pub struct Latencies {
    count: u64,
    least: u64,
    greatest: u64,
    sum: u128,
}

impl Model for Latencies {
    ghost use Rattle.std.specs.Prelude.{◌-◌, ◌*◌, ◌^◌, ◌≤◌};
    ghost use Rattle.trace_tables.specs.Latencies.{Counts};

    ghost Value = { Counts };

    ghost view = { λ l. record { count = l.count; least = l.least; greatest = l.greatest; total = l.sum } };

    ghost invariant = { λ l. l.sum ≤ l.count * (2 ^ 64 - 1) };

    ghost inverse = { λ c. record { count = c.count; least = c.least; greatest = c.greatest; sum = c.total } };
}

impl Latencies {
    /// Makes the counts before any frame.
    pub(crate) fn none() -> Self
        ensures { result ≡ counts_of [] }
    {
        Latencies {
            count: 0,
            least: 0,
            greatest: 0,
            sum: 0,
        }
    }

    /// Counts one more frame with this latency.
    pub(crate) fn add(&mut self, latency: u64)
        requires { self.old.count < 2 ^ 64 - 1 }
        ensures { self.new ≡ with_latency self.old latency }
    {
        self.least = if self.count == 0 {
            latency
        } else {
            self.least.min(latency)
        };
        self.greatest = self.greatest.max(latency);
        self.count += 1;
        self.sum += u128::from(latency);
    }

    /// Returns the number of frames.
    pub fn count(&self) -> u64
        ensures { result ≡ self.now.count }
    {
        self.count
    }

    /// Returns the least latency, in ns.
    pub fn least(&self) -> u64
        ensures { result ≡ self.now.least }
    {
        self.least
    }

    /// Returns the greatest latency, in ns.
    pub fn greatest(&self) -> u64
        ensures { result ≡ self.now.greatest }
    {
        self.greatest
    }

    /// Returns the sum of the latencies, in ns.
    pub fn sum(&self) -> u128
        ensures { result ≡ self.now.total }
    {
        self.sum
    }
}
