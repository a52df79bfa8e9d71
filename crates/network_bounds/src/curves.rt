//! What a virtual link contributes to the port before a line, as its regulator or its account lets it pass.
ghost use Rattle.std.specs.Prelude.{◌≡◌, ◌≤◌};
ghost use Rattle.network.specs.Words.{IsLinkInLimits};
ghost use Rattle.network_bounds.specs.Curves.{bag_cost, bag_of, bag_rate, burst_of, cost_of, counts_gaps, gap_of, is_first, is_metered, metered_cost, rate_of, slack_of};

use crate::passing::Passing;
use network::{Policing, Priority, VirtualLink};

/// The number of units in one ns.
pub const SCALE: u64 = 128_000_000;

/// Returns the BAG, in ns.
pub fn bag_ns(link: &VirtualLink) -> u64
    ensures { result ≡ bag_of link.now }
{
    u64::from(link.bag_ms) * 1_000_000
}

/// Returns how long its greatest frame keeps the line busy, in ns, at `byte_ns` ns a byte.
pub fn cost(byte_ns: u16, passing: &Passing) -> u32
    ensures { result ≡ cost_of byte_ns passing.now }
{
    (u32::from(passing.sizes.greatest.bytes()) + 20) * u32::from(byte_ns)
}

/// Returns how much earlier than the BAG says a frame may come, in ns. At an end system its regulator spaces its frames; at a switch its
/// account lets them come earlier by the policing jitter.
fn slack_ns(is_end: bool, link: &VirtualLink) -> u32
    ensures { result ≡ slack_of is_end link.now }
{
    if is_end { 0 } else { link.policing_jitter_ns }
}

/// Returns the least time between two of its frames, in ns; 0 if several may come at once.
fn gap_ns(is_end: bool, link: &VirtualLink) -> u64
    ensures { result ≡ gap_of is_end link.now }
{
    bag_ns(link).saturating_sub(u64::from(slack_ns(is_end, link)))
}

/// Whether its account lets more frames pass than its BAGs allow: it counts bytes, and some frames are shorter than Smax.
fn is_metered(is_end: bool, passing: &Passing) -> bool
    ensures { result ≡ is_metered is_end passing.now }
{
    if is_end {
        return false;
    }
    match passing.link.policing {
        Policing::Bytes => passing.sizes.least.bytes() < passing.link.smax.bytes(),
        Policing::Frames => false,
    }
}

/// Returns how long Smax bytes keep the line busy, in ns, if all frames are as short as the least; rounded up.
fn metered_cost(byte_ns: u16, passing: &Passing) -> u64
    ensures value { result ≡ metered_cost byte_ns passing.now }
    ensures within { result ≤ 4_294_967_295 }
{
    let least = u64::from(passing.sizes.least.bytes());
    let busy = (least + 20) * u64::from(byte_ns);
    (u64::from(passing.link.smax.bytes()) * busy + (least - 1)) / least
}

/// Returns what a virtual link gives in each BAG, in ns: its greatest frame, or the bytes that its account lets pass.
fn bag_cost(is_end: bool, byte_ns: u16, passing: &Passing) -> u64
    ensures value { result ≡ bag_cost is_end byte_ns passing.now }
    ensures within { result ≤ 4_294_967_295 }
{
    if is_metered(is_end, passing) {
        metered_cost(byte_ns, passing)
    } else {
        u64::from(cost(byte_ns, passing))
    }
}

/// Returns the rate of a virtual link by its BAG, in units a ns.
fn bag_rate(is_end: bool, byte_ns: u16, passing: &Passing) -> u64
    requires { IsLinkInLimits passing.now.link }
    ensures { result ≡ bag_rate is_end byte_ns passing.now }
{
    u64::from(128 / passing.link.bag_ms) * bag_cost(is_end, byte_ns, passing)
}

/// Whether a virtual link counts by its gap: if `by_gap`, its account does not count bytes of short frames, and there is one.
fn counts_gaps(is_end: bool, by_gap: bool, passing: &Passing) -> bool
    ensures { result ≡ counts_gaps is_end by_gap passing.now }
{
    !is_metered(is_end, passing) && by_gap && 0 < gap_ns(is_end, &passing.link)
}

/// Returns the rate of a virtual link, in units a ns: by its gap if it counts by it, otherwise by its BAG.
pub fn rate(is_end: bool, by_gap: bool, byte_ns: u16, passing: &Passing) -> u64
    requires { IsLinkInLimits passing.now.link }
    ensures { result ≡ rate_of is_end by_gap byte_ns passing.now }
{
    if counts_gaps(is_end, by_gap, passing) {
        SCALE * u64::from(cost(byte_ns, passing)) / gap_ns(is_end, &passing.link) + 1
    } else {
        bag_rate(is_end, byte_ns, passing)
    }
}

/// Returns the burst of a virtual link, in units: one frame by its gap; by its BAG also what its slack adds.
pub fn burst(is_end: bool, by_gap: bool, byte_ns: u16, passing: &Passing) -> u128
    requires { IsLinkInLimits passing.now.link }
    ensures { result ≡ burst_of is_end by_gap byte_ns passing.now }
{
    if counts_gaps(is_end, by_gap, passing) {
        return u128::from(SCALE) * u128::from(cost(byte_ns, passing));
    }
    let length = bag_ns(&passing.link) + u64::from(slack_ns(is_end, &passing.link));
    u128::from(bag_rate(is_end, byte_ns, passing)) * u128::from(length)
}

/// Whether its frames go first at the port.
pub fn is_first(is_end: bool, link: &VirtualLink) -> bool
    ensures { result ≡ is_first is_end link.now }
{
    if is_end {
        return false;
    }
    match link.priority {
        Priority::High => true,
        Priority::Low => false,
    }
}
