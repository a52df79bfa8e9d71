//! The port before a line, and the lines that lead to its node.
ghost use Rattle.std.specs.Prelude.{◌≡◌, ◌<◌, length, map, option_map, slice_get, IfOk, IfSome, Some};
ghost use Rattle.std.specs.List.{range_with_len};
ghost use Rattle.network.specs.Words.{lines_of};
ghost use Rattle.network_bounds.specs.Mixing.{PORTS, byte_ns_into, leads_to, line_into, port_before};
ghost use Rattle.network_bounds.specs.Sizes.{sizes_by};

use crate::passing::{Passing, is_end, passings};
use crate::sizes::LinkSizes;
use network::{GREATEST_PORTS, Network};
use std::alloc::{AllocError, Global};
use std::marker::Model;

/// The port before a line.
///
/// Clauses see what leaves by it, and for each port of its node the time of one byte on the line there, in ns.
#[derive(Drop)]
pub struct Port {
    pub is_end: bool,
    /// The time on the line of one byte, in ns.
    pub byte_ns: u16,
    /// What leaves by it.
    pub passings: Vec<Passing>,
    pub before: Vec<Option<u16>>,
}

impl Model for Port {
    ghost use Rattle.std.specs.Prelude.{◌≤◌, All};
    ghost use Rattle.network.specs.Words.{IsLinkInLimits};
    ghost use Rattle.network_bounds.specs.Mixing.{PortPlan};

    ghost Value = { PortPlan };

    ghost view = { λ p. record { is_end = p.is_end; byte_ns = p.byte_ns; passings = p.passings.items; before = p.before.items } };

    ghost invariant = { λ p. record { byte : 1 ≤ p.byte_ns; limits : All (λ passing. IsLinkInLimits passing.link) p.passings.items } };
}

/// Whether a line leads to this port of a node.
fn leads_to(network: &Network, node: usize, port: u16, line: usize) -> bool
    requires { line < length (lines_of network.now) }
    ensures { result ≡ leads_to network.now node port line }
{
    let ahead = network.line(line);
    usize::from(ahead.to) == node && ahead.to_port == port
}

/// Returns the line that leads to this port of a node.
pub fn line_into(network: &Network, node: usize, port: u16) -> Option<usize>
    ensures value { result ≡ line_into network.now node port }
    ensures line { IfSome result (λ k. k < length (lines_of network.now)) }
{
    let mut count = network.line_count();
    while count > 0 {
        count -= 1;
        if leads_to(network, node, port, count) {
            return Some(count);
        }
    }
    None
}

/// Returns how long a byte takes on the line that leads to this port of a node, in ns.
fn byte_ns_into(network: &Network, node: usize, port: u16) -> Option<u16>
    ensures { result ≡ byte_ns_into network.now node port }
{
    match line_into(network, node, port) {
        Some(line) => Some(network.line(line).byte_ns),
        None => None,
    }
}

/// Returns the same for each port.
fn bytes_into(alloc: Global, network: &Network, node: usize) -> Result<Vec<Option<u16>>, AllocError>
    ensures { IfOk result (λ found. found.items ≡ map (byte_ns_into network.now node) (range_with_len 0 PORTS)) }
{
    let mut found = Vec::new(alloc);
    for port in 0..GREATEST_PORTS {
        found.push(byte_ns_into(network, node, port as u16))?;
    }
    Ok(found)
}

impl Port {
    /// Makes the port before a line, where the frames of each virtual link have these sizes.
    pub fn new(
        alloc: Global,
        network: &Network,
        known: &[LinkSizes],
        line: usize,
    ) -> Result<Self, AllocError>
        requires { line < length (lines_of network.now) }
        ensures { IfOk result (λ port. option_map (port_before (sizes_by network.now known.now) network.now) (slice_get (lines_of network.now) line) ≡ Some port) }
    {
        let ahead = network.line(line);
        let node = usize::from(ahead.from);
        let before = bytes_into(alloc, network, node)?;
        let passings = passings(alloc, network, known, node, ahead.from_port)?;
        Ok(Port {
            is_end: is_end(network, node),
            byte_ns: ahead.byte_ns,
            passings,
            before,
        })
    }
}
