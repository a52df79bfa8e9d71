//! The virtual links that leave a node by a port, and where each came in.
ghost use Rattle.std.specs.Prelude.{◌≡◌, ◌<◌, ◌++◌, All, length, IfOk, OnOk};
ghost use Rattle.network.specs.Words.{IsLinkInLimits, is_end_system};
ghost use Rattle.network_bounds.specs.Curves.{is_first};
ghost use Rattle.network_bounds.specs.Sizes.{sizes_by};
ghost use Rattle.network_bounds.specs.Passing.{comes, first_port_of, input_of, passing_at, passings, sizes_at};

use crate::curves::is_first;
use crate::sizes::{FrameSizes, LinkSizes, sizes_at};
use network::{Network, NodeKind, VirtualLink, Way};
use std::alloc::{AllocError, Global};
use vlink::VlId;

/// A virtual link that leaves a node by a port.
#[derive(Clone, Copy)]
pub struct Passing {
    pub link: VirtualLink,
    /// The sizes of its frames.
    pub sizes: FrameSizes,
    /// The port by which it came in at a switch; 0 at its end system.
    pub input: u16,
}

/// Whether the node is an end system.
pub fn is_end(network: &Network, node: usize) -> bool
    requires { node < length network.now.nodes }
    ensures { result ≡ is_end_system network.now.nodes node }
{
    match network.kind(node) {
        NodeKind::EndSystem => true,
        NodeKind::Switch { .. } => false,
    }
}

/// Returns the port by which the virtual link with this number comes in, of these ways.
fn first_port_of(ways: &[Way], id: VlId) -> u16
    ensures { result ≡ first_port_of ways.now id.0 }
{
    for way in ways {
        if way.vl.0 == id.0 {
            return way.port;
        }
    }
    0
}

/// Returns the port by which the virtual link with this number comes in at a node.
pub fn input_of(network: &Network, node: usize, id: VlId) -> u16
    requires { node < length network.now.nodes }
    ensures { result ≡ input_of network.now node id.0 }
{
    if is_end(network, node) {
        0
    } else {
        first_port_of(network.arrivals(node), id)
    }
}

/// Returns the sizes that count at a node: those that its end system sends, or those that an account passes.
fn counted(is_end: bool, sizes: LinkSizes) -> FrameSizes
    ensures { result ≡ sizes_at is_end sizes }
{
    if is_end { sizes.sent } else { sizes.passed }
}

/// Appends the virtual link of this way, if it leaves a node by this port.
fn push_passing(
    found: &mut Vec<Passing>,
    network: &Network,
    known: &[LinkSizes],
    node: usize,
    port: u16,
    way: Way,
) -> Result<(), AllocError>
    requires node { node < length network.now.nodes }
    requires limits { All (λ p. IsLinkInLimits p.link) found.old.items }
    ensures passing { OnOk result (found.new.items ≡ found.old.items ++ passing_at (sizes_by network.now known.now) network.now node port way) }
    ensures limits { OnOk result (All (λ p. IsLinkInLimits p.link) found.new.items) }
{
    if way.port != port {
        return Ok(());
    }
    let Some(vl) = network.place_of(way.vl) else {
        return Ok(());
    };
    let link = network.virtual_link(vl);
    found.push(Passing {
        link,
        sizes: counted(is_end(network, node), sizes_at(known, vl)),
        input: input_of(network, node, way.vl),
    })?;
    Ok(())
}

/// Returns the virtual links that leave a node by this port.
pub fn passings(
    alloc: Global,
    network: &Network,
    known: &[LinkSizes],
    node: usize,
    port: u16,
) -> Result<Vec<Passing>, AllocError>
    requires node { node < length network.now.nodes }
    ensures passings { IfOk result (λ found. found.items ≡ passings (sizes_by network.now known.now) network.now node port) }
    ensures limits { IfOk result (λ found. All (λ p. IsLinkInLimits p.link) found.items) }
{
    let mut found = Vec::new(alloc);
    for way in network.departures(node) {
        push_passing(&mut found, network, known, node, port, *way)?;
    }
    Ok(found)
}

impl Passing {
    /// Whether it comes in by this port, and goes out with this priority.
    pub fn comes(&self, is_end: bool, input: u16, is_high: bool) -> bool
        ensures { result ≡ comes is_end input is_high self.now }
    {
        self.input == input && is_first(is_end, &self.link) == is_high
    }
}
