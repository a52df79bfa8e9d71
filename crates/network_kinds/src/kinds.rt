//! The kinds of nodes: end systems, and switches of a network.
ghost use Rattle.std.specs.Prelude.{◌≡◌, map};
ghost use Rattle.network.specs.Plan.{node_plan};
ghost use Rattle.network.specs.Wiring.{is_end_system, is_switch_of, is_end_kind, is_switch_kind};

use row_types::{NodeKind, NodeRow};
use vlink::Net;

/// Whether the kind is an end system.
fn is_end_kind(kind: NodeKind) -> bool
    ensures { result ≡ is_end_kind kind }
{
    match kind {
        NodeKind::EndSystem => true,
        NodeKind::Switch { .. } => false,
    }
}

/// Whether the kind is a switch of this network.
fn is_switch_kind(net: Net, kind: NodeKind) -> bool
    ensures { result ≡ is_switch_kind net kind }
{
    match kind {
        NodeKind::EndSystem => false,
        NodeKind::Switch { net: own, .. } => match (own, net) {
            (Net::A, Net::A) | (Net::B, Net::B) => true,
            (Net::A, Net::B) | (Net::B, Net::A) => false,
        },
    }
}

/// Whether the node with this number is an end system.
pub fn is_end_system(nodes: &[NodeRow], n: usize) -> bool
    ensures { result ≡ is_end_system (map node_plan nodes.now) n }
{
    match nodes.get(n) {
        Some(node) => is_end_kind(node.kind),
        None => false,
    }
}

/// Whether the node with this number is a switch of this network.
pub fn is_switch_of(nodes: &[NodeRow], net: Net, n: usize) -> bool
    ensures { result ≡ is_switch_of (map node_plan nodes.now) net n }
{
    match nodes.get(n) {
        Some(node) => is_switch_kind(net, node.kind),
        None => false,
    }
}
