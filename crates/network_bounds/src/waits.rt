//! How long a regulator holds a frame.
ghost use Rattle.std.specs.Prelude.{◌≡◌, ◌*◌, ◌==◌, ◌≤◌};
ghost use Rattle.std.specs.List.{list_any};
ghost use Rattle.network.specs.Words.{IsLinkInLimits};
ghost use Rattle.network_bounds.specs.Curves.{bag_of};
ghost use Rattle.network_bounds.specs.Ages.{is_alone, is_in_time, late_in, one_waits, steady_wait, wait_of};

use crate::curves::bag_ns;
use network::{Network, Stream, Timing, VirtualLink, VlStream};
use vlink::VlId;

/// Returns how late the bursts of a stream come at most, in ns: a sporadic one counts the next moment from when a burst came.
fn late_ns(stream: &Stream) -> u64
    ensures value { result ≡ late_in stream.now }
    ensures within { result ≤ 4_294_967_295 }
{
    match stream.timing {
        Timing::Periodic => u64::from(stream.jitter_ns),
        Timing::Sporadic => 0,
    }
}

/// Returns how long the BAGs of a burst take, in ns.
fn burst_ns(link: &VirtualLink) -> u64
    requires { IsLinkInLimits link.now }
    ensures value { result ≡ link.now.own.frames * bag_of link.now }
    ensures within { result ≤ 8_192_000_000 }
{
    u64::from(link.own.frames) * bag_ns(link)
}

/// Whether one of these rows is of the virtual link with this number.
fn has_row(rows: &[VlStream], id: VlId) -> bool
    ensures { result ≡ list_any (λ s. s.vl.0 == id.0) rows.now }
{
    for row in rows {
        if row.vl.0 == id.0 {
            return true;
        }
    }
    false
}

/// Whether a virtual link has one list; or bursts of one frame that come each before the next one is due, so that at most one frame waits.
fn one_waits(link: &VirtualLink) -> bool
    ensures { result ≡ one_waits link.now }
{
    link.sub == 1 || (link.own.frames == 1 && late_ns(&link.own) < link.own.period_ns)
}

/// Whether a frame waits for no other list and no other stream of its virtual link.
fn is_alone(network: &Network, link: &VirtualLink) -> bool
    ensures { result ≡ is_alone network.now link.now }
{
    one_waits(link) && !has_row(network.streams(), link.id)
}

/// Whether the bursts of its own stream come in order, and a period has the BAGs of a burst.
fn is_in_time(link: &VirtualLink) -> bool
    requires { IsLinkInLimits link.now }
    ensures { result ≡ is_in_time link.now }
{
    burst_ns(link) <= link.own.period_ns && late_ns(&link.own) <= link.own.period_ns
}

/// Returns how long a regulator holds a frame of such a virtual link at most, in ns.
fn steady_ns(link: &VirtualLink) -> u64
    requires { IsLinkInLimits link.now }
    ensures { result ≡ steady_wait link.now }
{
    let burst = burst_ns(link);
    let beyond = late_ns(&link.own) + burst;
    burst.saturating_sub(bag_ns(link)) + beyond.saturating_sub(link.own.period_ns)
}

/// Returns how long a regulator holds a frame at most, in ns: a whole list of frames for one BAG each. If one stream offers bursts that come in
/// order, each after the BAGs of the one before, it is no longer than the BAGs of the frames before it in its burst, and what those of a burst and
/// its lateness are beyond the period (`plan_waits::waits_law`).
pub fn wait_ns(network: &Network, link: &VirtualLink) -> u64
    requires { IsLinkInLimits link.now }
    ensures { result ≡ wait_of network.now link.now }
{
    let full = u64::from(link.depth) * u64::from(link.sub) * bag_ns(link);
    if is_alone(network, link) && is_in_time(link) {
        full.min(steady_ns(link))
    } else {
        full
    }
}
