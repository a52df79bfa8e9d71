//! Chooses weights for what comes with one priority, such that its burst is small. No contract is needed: that of `delays::PortBound::of`,
//! which `choose` serves, holds for any weights.

use crate::port::Port;
use crate::share::{Share, share_at};
use bound_numbers::{WHOLE, mixed};
use network::GREATEST_PORTS;

/// A burst and a rate.
#[derive(Clone, Copy)]
pub struct Total {
    pub burst: u128,
    pub rate: u128,
}

/// Returns what comes by each port with one priority; virtual links count by their gaps if `by_gap`.
pub fn shares_of(port: &Port, by_gap: bool, is_high: bool) -> [Share; GREATEST_PORTS] {
    let mut shares = [share_at(port, by_gap, 0, is_high); GREATEST_PORTS];
    for input in 1..GREATEST_PORTS {
        shares[input] = share_at(port, by_gap, input as u16, is_high);
    }
    shares
}

/// Returns the mixture by these weights.
pub fn weigh(shares: &[Share; GREATEST_PORTS], weights: &[u32; GREATEST_PORTS]) -> Total {
    let mut total = Total { burst: 0, rate: 0 };
    for input in 0..GREATEST_PORTS {
        let share = &shares[input];
        let weight = weights[input].min(WHOLE);
        total = Total {
            burst: mixed(weight, share.line_burst, share.burst).saturating_add(total.burst),
            rate: mixed(weight, share.line_rate, share.rate).saturating_add(total.rate),
        };
    }
    total
}

/// Returns the weights of the least burst: of each line or of its virtual links.
fn of_least_burst(shares: &[Share; GREATEST_PORTS]) -> [u32; GREATEST_PORTS] {
    let mut weights = [0; GREATEST_PORTS];
    for input in 0..GREATEST_PORTS {
        let share = &shares[input];
        if share.line_burst < share.burst {
            weights[input] = WHOLE;
        }
    }
    weights
}

/// Whether the rate of `a` falls by more than that of `b` for the burst that is added, if a line gives way to its virtual links.
fn is_cheaper(a: &Share, b: &Share) -> bool {
    let a_rate = a.line_rate.saturating_sub(a.rate);
    let b_rate = b.line_rate.saturating_sub(b.rate);
    let a_burst = a.burst.saturating_sub(a.line_burst);
    let b_burst = b.burst.saturating_sub(b.line_burst);
    a_burst.saturating_mul(b_rate) < b_burst.saturating_mul(a_rate)
}

/// Whether a line gives way to its virtual links before the other one does, or there is no other.
fn is_before(share: &Share, other: Option<Share>) -> bool {
    match other {
        Some(other) => is_cheaper(share, &other),
        None => true,
    }
}

/// Returns the line that gives way first, of those that count whole.
fn cheapest(
    shares: &[Share; GREATEST_PORTS],
    weights: &[u32; GREATEST_PORTS],
) -> Option<(usize, Share)> {
    let mut place = None;
    let mut found = None;
    for input in 0..GREATEST_PORTS {
        let share = &shares[input];
        let can_give = weights[input] == WHOLE && share.rate < share.line_rate;
        if can_give && is_before(share, found) {
            place = Some(input);
            found = Some(*share);
        }
    }
    Some((place?, found?))
}

/// Returns the weights of the least burst, if `count` lines give way to their virtual links whole. A mistake makes a bound greater, never
/// wrong.
pub fn lowered(shares: &[Share; GREATEST_PORTS], count: usize) -> [u32; GREATEST_PORTS] {
    let mut weights = of_least_burst(shares);
    for _ in 0..count {
        if let Some((input, _)) = cheapest(shares, &weights) {
            if let Some(weight) = weights.get_mut(input) {
                *weight = 0;
            }
        }
    }
    weights
}

/// Returns how many parts of a line count, if the rate should fall by `over`, as far as this line goes.
fn part_left(share: &Share, over: u128) -> u32 {
    let step = share.line_rate.saturating_sub(share.rate);
    let parts = over.checked_div(step).unwrap_or(0).saturating_add(1);
    WHOLE - parts.min(u128::from(WHOLE)) as u32
}

/// Lets a line give way, as far as its rate should fall by `over`.
fn give_way(weights: &mut [u32; GREATEST_PORTS], found: Option<(usize, Share)>, over: u128) {
    if let Some((input, share)) = found {
        if let Some(weight) = weights.get_mut(input) {
            *weight = part_left(&share, over);
        }
    }
}

/// Returns the weights of the least burst after as many lines as necessary give way to their virtual links, until the rate is at most
/// `room`. The last one gives way in part. A mistake makes a bound greater, never wrong.
pub fn filled(shares: &[Share; GREATEST_PORTS], room: u128) -> [u32; GREATEST_PORTS] {
    let mut weights = of_least_burst(shares);
    for _ in 0..GREATEST_PORTS {
        let over = weigh(shares, &weights).rate.saturating_sub(room);
        if over == 0 {
            return weights;
        }
        let found = cheapest(shares, &weights);
        give_way(&mut weights, found, over);
    }
    weights
}

/// Whether a line of high frames gives way before one of low frames.
fn is_high_before(high: &Option<(usize, Share)>, low: &Option<(usize, Share)>) -> bool {
    match (high, low) {
        (Some((_, high)), Some((_, low))) => !is_cheaper(low, high),
        (Some(_), None) => true,
        (None, _) => false,
    }
}

/// Returns the weights of high and of low frames, by the least burst of both after as many lines as necessary give way to their virtual links, until the
/// rate of both is at most `room`. The last one gives way in part. A mistake makes a bound greater, never wrong.
pub fn filled_both(
    high: &[Share; GREATEST_PORTS],
    low: &[Share; GREATEST_PORTS],
    room: u128,
) -> ([u32; GREATEST_PORTS], [u32; GREATEST_PORTS]) {
    let mut first = of_least_burst(high);
    let mut second = of_least_burst(low);
    for _ in 0..2 * GREATEST_PORTS {
        let rate = weigh(high, &first)
            .rate
            .saturating_add(weigh(low, &second).rate);
        let over = rate.saturating_sub(room);
        if over == 0 {
            return (first, second);
        }
        let of_high = cheapest(high, &first);
        let of_low = cheapest(low, &second);
        if is_high_before(&of_high, &of_low) {
            give_way(&mut first, of_high, over);
        } else {
            give_way(&mut second, of_low, over);
        }
    }
    (first, second)
}
