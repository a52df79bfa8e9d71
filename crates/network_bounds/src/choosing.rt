//! Chooses the mixtures of a port, such that its bounds are small.

use crate::delays::Weights;
use crate::filling::{Total, filled, filled_both, lowered, shares_of, weigh};
use crate::mixing::Parts;
use crate::port::Port;
use crate::share::Share;
use bound_numbers::UNITS;
use network::GREATEST_PORTS;

/// What comes by each port with one priority.
#[derive(Drop)]
struct Side {
    shares: [Share; GREATEST_PORTS],
    /// Whether virtual links count by their gaps.
    by_gap: bool,
}

impl Side {
    /// Returns what comes with this priority.
    fn of(port: &Port, by_gap: bool, is_high: bool) -> Self {
        Side {
            shares: shares_of(port, by_gap, is_high),
            by_gap,
        }
    }

    /// Returns the mixture of the least burst that comes no faster than this, and its sums.
    fn within(&self, room: u128) -> (Parts, Total) {
        self.mixed(filled(&self.shares, room))
    }

    /// Returns the mixture by these weights, and its sums.
    fn mixed(&self, of_line: [u32; GREATEST_PORTS]) -> (Parts, Total) {
        let parts = Parts {
            of_line,
            by_gap: self.by_gap,
        };
        (parts, weigh(&self.shares, &of_line))
    }

    /// Returns the greatest cost of a frame, in ns.
    fn greatest(&self) -> u64 {
        let mut found = 0;
        for share in &self.shares {
            found = share.greatest.max(found);
        }
        found
    }
}

/// Mixtures of high and of low frames, the sums of the high one, and those of both.
#[derive(Clone, Copy)]
struct Pair {
    high: Parts,
    low: Parts,
    first: Total,
    both: Total,
}

impl Pair {
    /// Returns the pair of these mixtures.
    fn of(high: (Parts, Total), low: (Parts, Total)) -> Self {
        Pair {
            high: high.0,
            low: low.0,
            first: high.1,
            both: Total {
                burst: high.1.burst.saturating_add(low.1.burst),
                rate: high.1.rate.saturating_add(low.1.rate),
            },
        }
    }

    /// Returns the pair of the least burst of both that comes no faster than the line sends.
    fn within(high: &Side, low: &Side) -> Self {
        let (first, second) = filled_both(&high.shares, &low.shares, UNITS);
        Pair::of(high.mixed(first), low.mixed(second))
    }

    /// Returns how long the greatest low frame waits, in ns, or the greatest number if there is no bound. `own` is its cost, in units.
    fn later(&self, own: u128) -> u128 {
        if UNITS < self.both.rate {
            return u128::MAX;
        }
        let rest = self.both.burst.saturating_sub(own);
        rest.checked_div(UNITS.saturating_sub(self.first.rate))
            .unwrap_or(u128::MAX)
    }
}

/// Returns how much waits, or the greatest number if there is no bound.
fn waiting(both: &Total) -> u128 {
    if UNITS < both.rate {
        u128::MAX
    } else {
        both.burst
    }
}

/// The pair that gave the least number so far.
#[derive(Clone, Copy)]
struct Best {
    least: u128,
    high: Parts,
    low: Parts,
}

impl Best {
    /// Returns none so far.
    fn none() -> Self {
        let parts = Parts {
            of_line: [0; GREATEST_PORTS],
            by_gap: false,
        };
        Best {
            least: u128::MAX,
            high: parts,
            low: parts,
        }
    }

    /// Returns this pair if it gives a lesser number, otherwise the one before.
    fn or(self, number: u128, pair: &Pair) -> Self {
        if number < self.least {
            Best {
                least: number,
                high: pair.high,
                low: pair.low,
            }
        } else {
            self
        }
    }
}

/// The pair for the delay of low frames, and that for how much waits.
#[derive(Clone, Copy)]
struct Pairs {
    later: Best,
    waiting: Best,
}

impl Pairs {
    /// Returns the better of these pairs and those of high and low frames that count this way. For how much waits that is the pair of the least burst of
    /// both. For the delay of low frames it is that one too, or one in which a number of lines give way to their high virtual links, with the low mixture
    /// that this leaves room for. `own` is the cost of the greatest low frame, in units.
    fn or_of(self, high: &Side, low: &Side, own: u128) -> Self {
        let pair = Pair::within(high, low);
        let mut later = self.later.or(pair.later(own), &pair);
        for count in 0..GREATEST_PORTS + 1 {
            let first = high.mixed(lowered(&high.shares, count));
            let room = UNITS.saturating_sub(first.1.rate);
            let pair = Pair::of(first, low.within(room));
            later = later.or(pair.later(own), &pair);
        }
        Pairs {
            later,
            waiting: self.waiting.or(waiting(&pair.both), &pair),
        }
    }
}

/// Returns the mixture of high frames with the least burst.
fn first(by_bag: &Side, by_gap: &Side) -> Parts {
    let (bag_parts, bag) = by_bag.within(UNITS);
    let (gap_parts, gap) = by_gap.within(UNITS);
    if waiting(&gap) < waiting(&bag) {
        gap_parts
    } else {
        bag_parts
    }
}

/// Chooses the mixtures of a port. No contract is needed: that of the caller, `PortBound::of`, holds for any mixtures.
pub fn choose(port: &Port) -> Weights {
    let high = Side::of(port, false, true);
    let low = Side::of(port, false, false);
    let high_gap = Side::of(port, true, true);
    let low_gap = Side::of(port, true, false);
    let own = UNITS.saturating_mul(u128::from(low.greatest()));
    let none = Pairs {
        later: Best::none(),
        waiting: Best::none(),
    };
    let Pairs { later, waiting } = none
        .or_of(&high, &low, own)
        .or_of(&high_gap, &low, own)
        .or_of(&high, &low_gap, own)
        .or_of(&high_gap, &low_gap, own);
    Weights {
        first: first(&high, &high_gap),
        high: later.high,
        low: later.low,
        waiting_high: waiting.high,
        waiting_low: waiting.low,
    }
}
