//! Finds virtual links whose paths are not trees.
ghost use Rattle.std.specs.Prelude.{⊤, map};
ghost use Rattle.network.specs.Rows.{each};
ghost use Rattle.network.specs.Plan.{node_plan};
ghost use Rattle.network.specs.Faults.{no_tree_at_vl};
ghost use Rattle.network_paths.specs.Findings.{Finds};

use crate::each::{Review, check_each, key_at};
use network::Routed;
use network_paths::{Room, check_trees};
use network_rows::{DescFault, Key, Section};
use row_types::NodeRow;
use std::alloc::Global;

/// Checks that the paths of each virtual link are trees from one source.
#[derive(Drop)]
struct Vls<'a> {
    nodes: &'a [NodeRow],
}

impl<'a> Review for Vls<'a> {
    type Row = Routed;

    type Seen = Room;

    ghost faults = { λ s. no_tree_at_vl (map node_plan s.nodes.now) };

    ghost saw = { λ _ _ _. ⊤ };

    fn review(&self, room: &mut Room, i: usize, vl: &Routed) -> Result<(), DescFault> {
        let on_a = key_at(Section::Vl, i, Key::A);
        let on_b = key_at(Section::Vl, i, Key::B);
        check_trees(room, self.nodes, vl, on_a, on_b)
    }
}

/// Checks that the paths of each virtual link are trees from one source.
pub fn check_no_tree(alloc: Global, nodes: &[NodeRow], vls: &[Routed]) -> Result<(), DescFault>
    ensures { Finds result (each (no_tree_at_vl (map node_plan nodes.now)) vls.now) }
{
    let mut room = Room::new(alloc);
    check_each(&Vls { nodes }, &mut room, vls)
}
