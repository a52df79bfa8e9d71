//! Moves nodes to other groups if that lowers the traffic between groups.
use crate::flows::{Flow, add, is_switch, sum_at, take};
use crate::node_flows::NodeFlows;
use network::Network;
use std::alloc::{AllocError, Global};

/// How often all nodes are examined.
const ROUNDS: usize = 8;

/// The group of each node, and how many events each group has in a second.
#[derive(Drop)]
pub(crate) struct Owners {
    pub(crate) of: Vec<usize>,
    pub(crate) sums: Vec<u64>,
}

impl Owners {
    /// Returns the group of a node.
    pub(crate) fn at(&self, node: usize) -> usize {
        match self.of.get(node) {
            Some(group) => *group,
            None => 0,
        }
    }

    /// Moves nodes to the groups with which they have more traffic, if the load of these is then at most `most`, or less than that of the
    /// group that the node leaves. End systems leave a group whose load is greater. The last node of a group stays.
    pub(crate) fn improve(
        &mut self,
        alloc: Global,
        network: &Network,
        flows: &NodeFlows,
        loads: &[u64],
        most: u64,
    ) -> Result<(), AllocError> {
        for round in 0..ROUNDS {
            for node in 0..self.of.len() {
                let traffic = self.traffic_of(alloc, flows.at(node), node)?;
                let load = sum_at(loads, node);
                self.settle(node, load, &traffic, most, !is_switch(network, node));
            }
        }
        Ok(())
    }

    /// Returns the traffic between the node and each group. `flows` are those at the node.
    fn traffic_of(
        &self,
        alloc: Global,
        flows: &[Flow],
        node: usize,
    ) -> Result<Vec<u64>, AllocError> {
        let mut traffic = vec![in alloc; 0u64; self.sums.len()]?;
        for flow in flows {
            if flow.from == node {
                add(&mut traffic, self.at(flow.to), flow.frames);
            }
            if flow.to == node {
                add(&mut traffic, self.at(flow.from), flow.frames);
            }
        }
        Ok(traffic)
    }

    /// Moves the node to the group to which it should go, group by group.
    fn settle(&mut self, node: usize, load: u64, traffic: &[u64], most: u64, is_light: bool) {
        for group in 0..self.sums.len() {
            if group != self.at(node) && self.gains(node, group, load, traffic, most, is_light) {
                self.move_to(node, group, load);
            }
        }
    }

    fn gains(
        &self,
        node: usize,
        group: usize,
        load: u64,
        traffic: &[u64],
        most: u64,
        is_light: bool,
    ) -> bool {
        let before = sum_at(&self.sums, self.at(node));
        let after = sum_at(&self.sums, group).saturating_add(load);
        let more = sum_at(traffic, group) > sum_at(traffic, self.at(node));
        let evens = is_light && before > most && after < before && sum_at(traffic, group) > 0;
        before > load && (evens || more && (after <= most || after < before))
    }

    fn move_to(&mut self, node: usize, group: usize, load: u64) {
        let before = self.at(node);
        take(&mut self.sums, before, load);
        add(&mut self.sums, group, load);
        if let Some(place) = self.of.get_mut(node) {
            *place = group;
        }
    }
}
