//! What comes to a port by one line, with one priority.
ghost use Rattle.std.specs.Prelude.{◌≡◌};
ghost use Rattle.network.specs.Words.{IsLinkInLimits};
ghost use Rattle.network_bounds.specs.Mixing.{flows_share, is_bounding, share_at, with_link};

use crate::curves::{SCALE, burst, cost, rate};
use crate::passing::Passing;
use crate::port::Port;

/// What comes to a port by one line, with one priority: bursts in units, rates in units a ns. All sums stop at the greatest number.
#[derive(Clone, Copy)]
pub struct Share {
    /// Whether the line bounds what comes by it.
    pub is_bounding: bool,
    /// What the line bounds, if it does; otherwise what its virtual links can send.
    pub line_burst: u128,
    pub line_rate: u128,
    /// What its virtual links can send.
    pub burst: u128,
    pub rate: u128,
    /// The greatest cost of a frame, in ns.
    pub greatest: u64,
}

/// Adds one virtual link to what comes.
fn with_link(share: Share, port: &Port, by_gap: bool, passing: &Passing) -> Share
    requires { IsLinkInLimits passing.now.link }
    ensures { result ≡ with_link share port.now.is_end by_gap port.now.byte_ns passing.now }
{
    Share {
        burst: share
            .burst
            .saturating_add(burst(port.is_end, by_gap, port.byte_ns, passing)),
        rate: share.rate.saturating_add(u128::from(rate(
            port.is_end,
            by_gap,
            port.byte_ns,
            passing,
        ))),
        greatest: share.greatest.max(u64::from(cost(port.byte_ns, passing))),
        ..share
    }
}

/// Returns what the virtual links that come by port `input` can send.
fn flows_at(port: &Port, by_gap: bool, input: u16, is_high: bool) -> Share
    ensures { result ≡ flows_share port.now by_gap input is_high }
{
    let mut share = Share {
        is_bounding: false,
        line_burst: 0,
        line_rate: 0,
        burst: 0,
        rate: 0,
        greatest: 0,
    };
    for passing in &port.passings {
        if passing.comes(port.is_end, input, is_high) {
            share = with_link(share, port, by_gap, passing);
        }
    }
    share
}

/// Whether the line to this port bounds what comes by it: it does if it is no faster than the line ahead.
fn is_bounding(port: &Port, input: u16) -> bool
    ensures { result ≡ is_bounding port.now input }
{
    if port.is_end {
        return false;
    }
    match port.before.get(usize::from(input)) {
        Some(Some(byte_ns)) => port.byte_ns <= *byte_ns,
        _ => false,
    }
}

/// Returns what comes by port `input` with this priority; virtual links count by their gaps if `by_gap`.
pub fn share_at(port: &Port, by_gap: bool, input: u16, is_high: bool) -> Share
    ensures { result ≡ share_at port.now by_gap input is_high }
{
    let flows = flows_at(port, by_gap, input, is_high);
    if is_bounding(port, input) {
        Share {
            is_bounding: true,
            line_burst: u128::from(SCALE) * u128::from(flows.greatest),
            line_rate: u128::from(SCALE),
            ..flows
        }
    } else {
        Share {
            is_bounding: false,
            line_burst: flows.burst,
            line_rate: flows.rate,
            ..flows
        }
    }
}
