//! Puts clusters into groups.
use crate::clusters::Clusters;
use crate::flows::{add, least, sum_at};
use crate::matrix::Matrix;
use std::alloc::{AllocError, Global};

/// The group of each cluster, and how many events each group has in a second.
#[derive(Drop)]
pub(crate) struct Packed {
    pub(crate) of: Vec<Option<usize>>,
    pub(crate) sums: Vec<u64>,
}

/// Puts the clusters into groups, those with the greatest load first. Each group gets one. Each further cluster goes to the group with
/// which it has most traffic, of those whose load stays at most `most`, or to the group with the least load.
pub(crate) fn pack(
    alloc: Global,
    clusters: &Clusters,
    between: &Matrix,
    groups: usize,
    most: u64,
) -> Result<Packed, AllocError> {
    let mut packed = Packed {
        of: vec![in alloc; None; clusters.sums.len()]?,
        sums: vec![in alloc; 0u64; groups]?,
    };
    for placed in 0..clusters.sums.len() {
        if let Some(cluster) = greatest(clusters, &packed) {
            let load = sum_at(&clusters.sums, cluster);
            let group = if placed < groups {
                placed
            } else {
                best(&packed, between, cluster, load, most)
            };
            add(&mut packed.sums, group, load);
            if let Some(place) = packed.of.get_mut(cluster) {
                *place = Some(group);
            }
        }
    }
    Ok(packed)
}

/// Returns the cluster with the greatest load that is in no group yet.
fn greatest(clusters: &Clusters, packed: &Packed) -> Option<usize> {
    let mut greatest = None;
    let mut load = 0;
    for cluster in 0..clusters.sums.len() {
        if sum_at(&clusters.sums, cluster) > load && group_of(packed, cluster).is_none() {
            greatest = Some(cluster);
            load = sum_at(&clusters.sums, cluster);
        }
    }
    greatest
}

/// Returns the group of a cluster.
pub(crate) fn group_of(packed: &Packed, cluster: usize) -> Option<usize> {
    match packed.of.get(cluster) {
        Some(group) => *group,
        None => None,
    }
}

/// Returns the group with which the cluster has most traffic, of those whose load stays at most `most`, or else the one with the least
/// load.
fn best(packed: &Packed, between: &Matrix, cluster: usize, load: u64, most: u64) -> usize {
    let mut best = None;
    let mut traffic = 0;
    for group in 0..packed.sums.len() {
        let frames = traffic_with(packed, between, cluster, group);
        if sum_at(&packed.sums, group).saturating_add(load) <= most && frames > traffic {
            best = Some(group);
            traffic = frames;
        }
    }
    match best {
        Some(group) => group,
        None => least(&packed.sums),
    }
}

/// Returns the traffic between the cluster and the members of the group.
fn traffic_with(packed: &Packed, between: &Matrix, cluster: usize, group: usize) -> u64 {
    let mut frames = 0u64;
    for other in 0..packed.of.len() {
        if group_of(packed, other) == Some(group) {
            frames = frames.saturating_add(between.at(cluster, other));
        }
    }
    frames
}
