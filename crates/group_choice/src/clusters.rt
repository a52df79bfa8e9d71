//! Clusters of nodes that stay together: each switch with the end systems that have most traffic with it.
use crate::flows::{Flow, add, is_switch, sum_at};
use crate::node_flows::NodeFlows;
use network::Network;
use std::alloc::{AllocError, Global};

/// The clusters of a network, one for each switch at first, in the order of the switches.
#[derive(Drop)]
pub(crate) struct Clusters {
    /// The cluster of each node; none for an end system without traffic.
    pub(crate) of: Vec<Option<usize>>,
    /// How many events each cluster has in a second.
    pub(crate) sums: Vec<u64>,
}

impl Clusters {
    /// Makes a cluster of each switch with its end systems.
    pub(crate) fn new(
        alloc: Global,
        network: &Network,
        flows: &NodeFlows,
        loads: &[u64],
    ) -> Result<Self, AllocError> {
        let mut clusters = Clusters {
            of: Vec::with_capacity(alloc, network.node_count())?,
            sums: Vec::new(alloc),
        };
        clusters.begin(network, loads)?;
        clusters.take_in(network, flows, loads);
        Ok(clusters)
    }

    /// Makes each switch a cluster.
    fn begin(&mut self, network: &Network, loads: &[u64]) -> Result<(), AllocError> {
        for node in 0..network.node_count() {
            if is_switch(network, node) {
                self.of.push(Some(self.sums.len()))?;
                self.sums.push(sum_at(loads, node))?;
            } else {
                self.of.push(None)?;
            }
        }
        Ok(())
    }

    /// Returns the cluster of a node.
    pub(crate) fn at(&self, node: usize) -> Option<usize> {
        match self.of.get(node) {
            Some(cluster) => *cluster,
            None => None,
        }
    }

    /// Adds the end systems to the clusters of the switches.
    fn take_in(&mut self, network: &Network, flows: &NodeFlows, loads: &[u64]) {
        for node in 0..network.node_count() {
            if !is_switch(network, node) {
                let here = flows.at(node);
                let most = self.most(here, node);
                let cluster = self.least_of(here, node, most);
                self.put(node, cluster, sum_at(loads, node));
            }
        }
    }

    fn put(&mut self, node: usize, cluster: Option<usize>, load: u64) {
        if let Some(cluster) = cluster {
            add(&mut self.sums, cluster, load);
        }
        if let Some(place) = self.of.get_mut(node) {
            *place = cluster;
        }
    }

    /// Returns the most frames in a second that the end system sends to a switch. `flows` are those at the end system.
    fn most(&self, flows: &[Flow], node: usize) -> u64 {
        let mut most = 0;
        for flow in flows {
            if flow.from == node && self.at(flow.to).is_some() {
                most = flow.frames.max(most);
            }
        }
        most
    }

    /// Of the switches to which the end system sends about `most` frames, returns the one whose cluster has the least load.
    fn least_of(&self, flows: &[Flow], node: usize, most: u64) -> Option<usize> {
        let mut least = None;
        for flow in flows {
            if flow.from == node && flow.frames.saturating_mul(10) >= most.saturating_mul(9) {
                least = self.lesser(least, self.at(flow.to));
            }
        }
        least
    }

    /// Returns the one of two clusters that has the lesser load, the first if they are equal.
    fn lesser(&self, one: Option<usize>, other: Option<usize>) -> Option<usize> {
        let (Some(first), Some(second)) = (one, other) else {
            return one.or(other);
        };
        if sum_at(&self.sums, second) < sum_at(&self.sums, first) {
            other
        } else {
            one
        }
    }
}
