//! The names of nodes, and their numbers. The kit's hasher has a fixed seed, so names can be chosen that collide. Reading such a
//! description is slow, and its result is that of any other.
ghost use Rattle.std.specs.Prelude.{◌≡◌, IfOk, IfSome, is_some};
ghost use Rattle.network.specs.Names.{names_of, is_among, place_among, number_of};
ghost use Rattle.network_faults.specs.Lookups.{AreNumbers};

use row_types::NodeRow;
use std::alloc::{AllocError, Global};
use std::collections::HashMap;

/// Nodes, with the number of each name.
#[derive(Drop)]
pub struct Names<'a> {
    pub nodes: &'a [NodeRow],
    numbers: HashMap<&'a str, usize>,
    ghost numbered: { AreNumbers numbers (names_of nodes.now) },
}

impl<'a> Names<'a> {
    /// Indexes the names of these nodes: the number of each name is that of the first node with it.
    pub fn new(alloc: Global, nodes: &'a [NodeRow]) -> Result<Self, AllocError>
        ensures { IfOk result (λ names. names.nodes.now ≡ nodes.now) }
    {
        let mut numbers = HashMap::new(alloc);
        for (i, node) in nodes.iter().enumerate() {
            let name = node.name.as_str();
            if !numbers.contains_key(name) {
                numbers.insert(name, i)?;
            }
        }
        Ok(Names { nodes, numbers })
    }

    /// Returns the number of the first node with this name, or none if no node has it.
    pub fn number(&self, name: &str) -> Option<usize>
        ensures place { result ≡ place_among (names_of self.now.nodes.now) name.now }
        ensures known { is_some result ≡ is_among (names_of self.now.nodes.now) name.now }
        ensures value { IfSome result (λ n. n ≡ number_of (names_of self.now.nodes.now) name.now) }
    {
        self.numbers.get(name).copied()
    }
}
