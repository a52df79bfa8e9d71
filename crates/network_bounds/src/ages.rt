//! How long a frame of a virtual link takes from its release to a place, along its path: at most, and at least.
ghost use Rattle.std.specs.Prelude.{◌≡◌, ◌<◌, ◌+◌, length, Ok};
ghost use Rattle.network.specs.Words.{lines_of};
ghost use Rattle.network_bounds.specs.Ages.{age_after, age_by, age_to, ends_by, latency_of, sent_over};
ghost use Rattle.network_bounds.specs.Least.{least_after, least_by, least_to, sent_at_once, with_least};
ghost use Rattle.network_bounds.specs.Numbers.{capped};

use crate::delays::{PortBound, delay_of};
use crate::passing::{input_of, is_end};
use crate::port::line_into;
use crate::reason::Reason;
use network::{LinePlan, Network, NodeKind, VirtualLink};
use vlink::{FrameSize, VlId, last_bit_ns};

/// How long a frame takes at most and at least, in ns.
#[derive(Clone, Copy)]
pub struct Span {
    pub most: u128,
    pub least: u128,
}

/// Returns how long a frame takes through a node, in ns.
fn latency_of(network: &Network, node: usize) -> u128
    requires { node < length network.now.nodes }
    ensures { result ≡ latency_of network.now node }
{
    match network.kind(node) {
        NodeKind::EndSystem => 0,
        NodeKind::Switch { latency_ns, .. } => u128::from(latency_ns),
    }
}

impl Span {
    /// Adds `more` ns to both.
    fn plus(self, more: u128) -> Self
        ensures most { result.most ≡ capped (self.most + more) }
        ensures least { result.least ≡ capped (self.least + more) }
    {
        Span {
            most: self.most.saturating_add(more),
            least: self.least.saturating_add(more),
        }
    }
}

/// Returns the ages of a frame as it comes out of a line, from those at the port before the line: it waited there, was sent, and was then
/// in transit. At least it takes the time of its least frame, which has `least` bytes.
fn sent_over(
    is_end: bool,
    line: &LinePlan,
    bound: &PortBound,
    link: &VirtualLink,
    least: FrameSize,
    age: Span,
) -> Result<Span, Reason>
    ensures { result ≡ with_least (sent_over is_end line.now bound.now link.now least (Ok age.most)) (sent_at_once line.now least age.least) }
{
    let delay = delay_of(is_end, line.byte_ns, bound, link, least)?;
    let sent = Span {
        most: age.most.saturating_add(delay),
        least: age
            .least
            .saturating_add(u128::from(last_bit_ns(least, u32::from(line.byte_ns)))),
    };
    Ok(sent.plus(u128::from(line.propagation_ns)))
}

/// Returns the ages of a frame as it comes out of a line, after a given number of lines at most.
fn ages_after(
    network: &Network,
    bounds: &[PortBound],
    link: &VirtualLink,
    least: FrameSize,
    lines: usize,
    line: usize,
) -> Result<Span, Reason>
    requires { line < length (lines_of network.now) }
    ensures { result ≡ with_least (age_after network.now bounds.now link.now least lines line) (least_after network.now link.now least lines line) }
{
    if lines == 0 {
        return Err(Reason::Way);
    }
    let ahead = network.line(line);
    let Some(bound) = bounds.get(line) else {
        return Err(Reason::Way);
    };
    let node = usize::from(ahead.from);
    if is_end(network, node) {
        let released = Span { most: 0, least: 0 };
        return sent_over(true, &ahead, bound, link, least, released);
    }
    let Some(before) = line_into(network, node, input_of(network, node, link.id)) else {
        return Err(Reason::Way);
    };
    match ages_after(network, bounds, link, least, lines - 1, before) {
        Ok(came) => {
            let age = came.plus(latency_of(network, node));
            sent_over(false, &ahead, bound, link, least, age)
        }
        Err(reason) => Err(reason),
    }
}

/// Whether a virtual link ends at a node by this port.
fn ends_by(network: &Network, node: usize, id: VlId, port: u16) -> bool
    requires { node < length network.now.nodes }
    ensures { result ≡ ends_by network.now node id.0 port }
{
    for way in network.arrivals(node) {
        if way.vl.0 == id.0 && way.port == port {
            return true;
        }
    }
    false
}

/// Returns the ages of a frame as it comes to its destination by this port. If it does not come by it, they are those that do not count beside
/// others: 0 and the greatest number.
fn ages_by(
    network: &Network,
    bounds: &[PortBound],
    link: &VirtualLink,
    least: FrameSize,
    node: usize,
    port: u16,
) -> Result<Span, Reason>
    requires { node < length network.now.nodes }
    ensures { result ≡ with_least (age_by network.now bounds.now link.now least node port) (least_by network.now link.now least node port) }
{
    if !ends_by(network, node, link.id, port) {
        return Ok(Span {
            most: 0,
            least: u128::MAX,
        });
    }
    match line_into(network, node, port) {
        Some(line) => ages_after(network, bounds, link, least, network.line_count(), line),
        None => Err(Reason::Way),
    }
}

/// Returns how long a frame takes from its release to a destination, in ns: at most by the network on which it takes longer, at least by the other.
/// The least frame of the virtual link has `least` bytes.
pub fn ages_to(
    network: &Network,
    bounds: &[PortBound],
    link: &VirtualLink,
    least: FrameSize,
    node: usize,
) -> Result<Span, Reason>
    requires { node < length network.now.nodes }
    ensures { result ≡ with_least (age_to network.now bounds.now link.now least node) (least_to network.now link.now least node) }
{
    if !ends_by(network, node, link.id, 0) && !ends_by(network, node, link.id, 1) {
        return Err(Reason::Way);
    }
    let a = ages_by(network, bounds, link, least, node, 0)?;
    let b = ages_by(network, bounds, link, least, node, 1)?;
    let age = Span {
        most: a.most.max(b.most),
        least: a.least.min(b.least),
    };
    if age.most < u128::MAX {
        Ok(age)
    } else {
        Err(Reason::Number)
    }
}
