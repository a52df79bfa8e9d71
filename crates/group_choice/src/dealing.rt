//! Distributes nodes to groups by their load alone, if there are more groups than switches.
use crate::flows::{add, least};
use crate::moving::Owners;
use std::alloc::{AllocError, Global};

/// The load of a node.
#[derive(Clone, Copy, PartialEq, Eq, PartialOrd, Ord)]
struct Load {
    events: u64,
    node: usize,
}

/// Gives each node, the one with the greatest load first, to the group with the least load.
pub(crate) fn deal(alloc: Global, loads: &[u64], groups: usize) -> Result<Owners, AllocError> {
    let mut left = by_events(alloc, loads)?;
    let mut owners = Owners {
        of: vec![in alloc; 0usize; loads.len()]?,
        sums: vec![in alloc; 0u64; groups]?,
    };
    for dealt in 0..loads.len() {
        if let Some(load) = left.pop() {
            give(&mut owners, load);
        }
    }
    Ok(owners)
}

/// Returns the load of each node, the greatest last.
fn by_events(alloc: Global, loads: &[u64]) -> Result<Vec<Load>, AllocError> {
    let mut left = Vec::with_capacity(alloc, loads.len())?;
    for node in 0..loads.len() {
        left.push(Load {
            events: loads[node],
            node,
        })?;
    }
    left.sort()?;
    Ok(left)
}

/// Gives the node to the group with the least load.
fn give(owners: &mut Owners, load: Load) {
    let group = least(&owners.sums);
    add(&mut owners.sums, group, load.events);
    if let Some(place) = owners.of.get_mut(load.node) {
        *place = group;
    }
}
