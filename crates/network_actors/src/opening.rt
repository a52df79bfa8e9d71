//! The nodes and lines of a network at the start.
ghost use Rattle.std.specs.Prelude.{IfOk};
ghost use Rattle.reverse.specs.Setting.{AreInStates};
ghost use Rattle.network.specs.Words.{process_count};
ghost use Rattle.nodes.specs.Words.{opening};

use network::Network;
use nodes::Node;
use std::alloc::{AllocError, Global};

/// Makes all processes of a network, each as it is before any message: process p is in place p. It fails only if memory is refused.
pub fn nodes_of(alloc: Global, network: &Network) -> Result<Vec<Node>, AllocError>
    ensures { IfOk result (λ nodes. AreInStates (process_count network.now) (opening network.now) nodes.items) }
{
    let mut nodes = Vec::new(alloc);
    for process in 0..network.process_count() {
        nodes.push(Node::new(alloc, network, process)?)?;
    }
    Ok(nodes)
}
