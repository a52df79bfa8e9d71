//! Joins clusters, the two with the most traffic between them first.
use crate::clusters::Clusters;
use crate::flows::{Flow, add, sum_at};
use crate::matrix::Matrix;
use crate::node_flows::NodeFlows;
use std::alloc::{AllocError, Global};

/// Two clusters, and the traffic between them.
#[derive(Clone, Copy)]
struct Pair {
    one: usize,
    other: usize,
    frames: u64,
}

/// Joins clusters as long as they are more than groups, and two with traffic between them have a load of at most `most`. A cluster that
/// joined another has no load. Returns the traffic between each two.
pub(crate) fn join_all(
    alloc: Global,
    clusters: &mut Clusters,
    flows: &NodeFlows,
    groups: usize,
    most: u64,
) -> Result<Matrix, AllocError> {
    let mut between = flow_between(alloc, clusters, flows)?;
    for joined in groups..clusters.sums.len() {
        if let Some(pair) = closest(clusters, &between, most) {
            join(clusters, &mut between, pair);
        }
    }
    Ok(between)
}

/// Returns the traffic between each two clusters.
fn flow_between(
    alloc: Global,
    clusters: &Clusters,
    flows: &NodeFlows,
) -> Result<Matrix, AllocError> {
    let mut between = Matrix::new(alloc, clusters.sums.len())?;
    for node in 0..clusters.of.len() {
        for flow in flows.at(node) {
            if flow.from == node {
                add_flow(&mut between, clusters, *flow);
            }
        }
    }
    Ok(between)
}

/// Adds a flow to the traffic between clusters, if it goes from one to another.
fn add_flow(between: &mut Matrix, clusters: &Clusters, flow: Flow) {
    if let (Some(one), Some(other)) = (clusters.at(flow.from), clusters.at(flow.to)) {
        if one != other {
            between.add(one, other, flow.frames);
        }
    }
}

/// Returns the two clusters with the most traffic between them, of those whose loads are together at most `most`; none if no such two have
/// traffic between them.
fn closest(clusters: &Clusters, between: &Matrix, most: u64) -> Option<Pair> {
    let mut closest: Option<Pair> = None;
    for one in 0..clusters.sums.len() {
        closest = closer(closest, closest_to(clusters, between, one, most));
    }
    closest
}

/// Does the same with one cluster given, which comes first.
fn closest_to(clusters: &Clusters, between: &Matrix, one: usize, most: u64) -> Option<Pair> {
    let mut closest: Option<Pair> = None;
    for other in one..clusters.sums.len() {
        if fit(&clusters.sums, one, other, most) {
            let frames = between.at(one, other);
            closest = closer(closest, Some(Pair { one, other, frames }));
        }
    }
    closest
}

/// Whether these are two clusters, neither of which joined another, whose loads are together at most `most`.
fn fit(sums: &[u64], one: usize, other: usize, most: u64) -> bool {
    let (first, second) = (sum_at(sums, one), sum_at(sums, other));
    one != other && first > 0 && second > 0 && first.saturating_add(second) <= most
}

/// Returns the pair with more traffic, if it has any.
fn closer(one: Option<Pair>, other: Option<Pair>) -> Option<Pair> {
    let more = match one {
        Some(pair) => pair.frames,
        None => 0,
    };
    match other {
        Some(pair) if pair.frames > more => other,
        _ => one,
    }
}

/// Joins the second cluster of the pair to the first.
fn join(clusters: &mut Clusters, between: &mut Matrix, pair: Pair) {
    let joined = sum_at(&clusters.sums, pair.other);
    add(&mut clusters.sums, pair.one, joined);
    if let Some(sum) = clusters.sums.get_mut(pair.other) {
        *sum = 0;
    }
    for cluster in 0..clusters.sums.len() {
        if cluster != pair.one {
            let frames = between.at(pair.other, cluster);
            between.add(pair.one, cluster, frames);
        }
    }
    for cluster in &mut clusters.of {
        if *cluster == Some(pair.other) {
            *cluster = Some(pair.one);
        }
    }
}
