//! The traffic on the lines of a network, and the load of its nodes.
use network::{Network, Way};
use row_types::{NodeKind, Stream};
use std::alloc::{AllocError, Global};

/// How many frames a line carries in a second, from one node to another.
#[derive(Clone, Copy)]
pub(crate) struct Flow {
    pub(crate) from: usize,
    pub(crate) to: usize,
    pub(crate) frames: u64,
}

/// Returns how many frames of each virtual link are sent in a second, by its place: at least one, as many as its streams offer, and at most
/// one in each BAG.
pub(crate) fn rates_of(alloc: Global, network: &Network) -> Result<Vec<u64>, AllocError> {
    let mut rates = vec![in alloc; 0u64; network.vl_count()]?;
    for vl in 0..network.vl_count() {
        add(&mut rates, vl, offered_by(&network.virtual_link(vl).own));
    }
    for row in network.streams() {
        if let Some(vl) = network.place_of(row.vl) {
            add(&mut rates, vl, offered_by(&row.stream));
        }
    }
    for vl in 0..network.vl_count() {
        let gap_ns = u64::from(network.virtual_link(vl).bag_ms) * 1_000_000;
        if let Some(rate) = rates.get_mut(vl) {
            *rate = (*rate).min(1_000_000_000 / gap_ns.max(1)) + 1;
        }
    }
    Ok(rates)
}

/// Returns how many frames a stream offers in a second.
fn offered_by(stream: &Stream) -> u64 {
    u64::from(stream.frames) * 1_000_000_000 / stream.period_ns.max(1)
}

/// Returns the traffic of each line, by its number, if the virtual links have these rates.
pub(crate) fn flows_of(
    alloc: Global,
    network: &Network,
    rates: &[u64],
) -> Result<Vec<Flow>, AllocError> {
    let frames = frames_by_node(alloc, network, rates)?;
    let mut flows = Vec::with_capacity(alloc, network.line_count())?;
    for number in 0..network.line_count() {
        let line = network.line(number);
        let from = usize::from(line.from);
        flows.push(Flow {
            from,
            to: usize::from(line.to),
            frames: frames_at(&frames, from, usize::from(line.from_port)),
        })?;
    }
    Ok(flows)
}

/// Returns how many events each node has in a second, at least one, if the virtual links have these rates. The events of a line count for the
/// node to which it leads.
pub(crate) fn loads_of(
    alloc: Global,
    network: &Network,
    rates: &[u64],
    flows: &[Flow],
) -> Result<Vec<u64>, AllocError> {
    let mut loads = vec![in alloc; 1u64; network.node_count()]?;
    for vl in 0..network.vl_count() {
        add(
            &mut loads,
            usize::from(network.source(vl)),
            sum_at(rates, vl),
        );
    }
    for flow in flows {
        add(&mut loads, flow.from, sent_by(network, *flow));
        add(&mut loads, flow.to, flow.frames.saturating_mul(2));
    }
    Ok(loads)
}

/// Whether the node is a switch.
pub(crate) fn is_switch(network: &Network, node: usize) -> bool {
    if node >= network.node_count() {
        return false;
    }
    match network.kind(node) {
        NodeKind::Switch { .. } => true,
        NodeKind::EndSystem => false,
    }
}

/// Returns how many events the node has in a second for what it sends over the line. A switch has a second event for each frame, by which
/// the frame comes to the port.
fn sent_by(network: &Network, flow: Flow) -> u64 {
    if is_switch(network, flow.from) {
        flow.frames.saturating_mul(2)
    } else {
        flow.frames
    }
}

/// Returns how many frames each port of each node sends in a second.
fn frames_by_node(
    alloc: Global,
    network: &Network,
    rates: &[u64],
) -> Result<Vec<Vec<u64>>, AllocError> {
    let mut frames = Vec::with_capacity(alloc, network.node_count())?;
    for node in 0..network.node_count() {
        frames.push(frames_by_port(alloc, network, rates, network.departures(node))?)?;
    }
    Ok(frames)
}

/// Returns how many frames each port of a node sends in a second. `ways` are the ways that leave the node.
fn frames_by_port(
    alloc: Global,
    network: &Network,
    rates: &[u64],
    ways: &[Way],
) -> Result<Vec<u64>, AllocError> {
    let mut ports = 0;
    for way in ways {
        ports = (usize::from(way.port) + 1).max(ports);
    }
    let mut frames = vec![in alloc; 0u64; ports]?;
    for way in ways {
        if let Some(vl) = network.place_of(way.vl) {
            add(&mut frames, usize::from(way.port), sum_at(rates, vl));
        }
    }
    Ok(frames)
}

/// Returns how many frames a port of a node sends in a second.
fn frames_at(frames: &[Vec<u64>], node: usize, port: usize) -> u64 {
    match frames.get(node) {
        Some(ports) => sum_at(ports, port),
        None => 0,
    }
}

/// Adds `more` at a place.
pub(crate) fn add(sums: &mut [u64], place: usize, more: u64) {
    if let Some(sum) = sums.get_mut(place) {
        *sum = sum.saturating_add(more);
    }
}

/// Subtracts `less` at a place.
pub(crate) fn take(sums: &mut [u64], place: usize, less: u64) {
    if let Some(sum) = sums.get_mut(place) {
        *sum = sum.saturating_sub(less);
    }
}

/// Returns the sum at a place.
pub(crate) fn sum_at(sums: &[u64], place: usize) -> u64 {
    match sums.get(place) {
        Some(sum) => *sum,
        None => 0,
    }
}

/// Returns the place of the least sum, the first if there are several.
pub(crate) fn least(sums: &[u64]) -> usize {
    let mut least = 0;
    for place in 0..sums.len() {
        if sum_at(sums, place) < sum_at(sums, least) {
            least = place;
        }
    }
    least
}
