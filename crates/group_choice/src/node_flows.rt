//! The lines at each node, with their traffic.
use crate::flows::Flow;
use std::alloc::{AllocError, Global};

/// For each node the flows that leave it or come to it, in the order of their lines.
#[derive(Drop)]
pub(crate) struct NodeFlows {
    lists: Vec<Vec<Flow>>,
}

impl NodeFlows {
    /// Lists these flows for each of this many nodes.
    pub(crate) fn new(alloc: Global, flows: &[Flow], nodes: usize) -> Result<Self, AllocError> {
        let mut lists = Vec::with_capacity(alloc, nodes)?;
        for _ in 0..nodes {
            lists.push(Vec::new(alloc))?;
        }
        let mut listed = NodeFlows { lists };
        for flow in flows {
            listed.add(flow.from, *flow)?;
            listed.add(flow.to, *flow)?;
        }
        Ok(listed)
    }

    /// Returns the flows at a node.
    pub(crate) fn at(&self, node: usize) -> &[Flow] {
        match self.lists.get(node) {
            Some(flows) => flows.as_slice(),
            None => &[],
        }
    }

    /// Adds a flow to those at a node.
    fn add(&mut self, node: usize, flow: Flow) -> Result<(), AllocError> {
        if let Some(flows) = self.lists.get_mut(node) {
            flows.push(flow)?;
        }
        Ok(())
    }
}
