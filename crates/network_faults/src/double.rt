//! Names of nodes, pairs of linked nodes and numbers of virtual links that an earlier row already has.
ghost use Rattle.std.specs.Prelude.{◌≡◌, ℕ, ◌==◌, map};
ghost use Rattle.std.specs.List.{list_any};
ghost use Rattle.std.specs.Ordering.{nat_cmp};
ghost use Rattle.std.specs.BTreeSet.{contains};
ghost use Rattle.network.specs.Rows.{each};
ghost use Rattle.network.specs.Plan.{node_plan};
ghost use Rattle.network.specs.Faults.{double_at_node, double_at_link, double_at_vl};
ghost use Rattle.network_paths.specs.Findings.{Finds};

use crate::each::{Review, check_each, key_at};
use crate::links::Joined;
use crate::names::Names;
use network::Routed;
use network_rows::{DescFault, Key, Section};
use std::alloc::Global;
use std::collections::BTreeSet;

/// Checks that no two nodes have one name: the number of each name is that of its own node.
pub fn check_nodes(names: &Names) -> Result<(), DescFault>
    ensures { Finds result (each double_at_node (map node_plan names.now.nodes.now)) }
{
    for (i, node) in names.nodes.iter().enumerate() {
        let first = names.number(node.name.as_str()).unwrap_or(i);
        if first < i {
            return Err(DescFault::DoubleName(key_at(Section::Node, i, Key::Name)));
        }
    }
    Ok(())
}

/// Checks that no two links join the same nodes: the place that the nodes of each link have is its own.
pub fn check_links(joined: &Joined) -> Result<(), DescFault>
    ensures { Finds result (each double_at_link joined.now.links.now) }
{
    for (i, link) in joined.links.iter().enumerate() {
        let place = joined.place(link.a, link.b).unwrap_or(i);
        if place < i {
            return Err(DescFault::DoubleName(key_at(Section::Link, i, Key::B)));
        }
    }
    Ok(())
}

/// Marks the numbers of virtual links.
#[derive(Drop)]
struct Ids {}

impl Review for Ids {
    type Row = Routed;

    type Seen = BTreeSet<usize>;

    ghost faults = { λ _. double_at_vl };

    ghost saw = { λ _ ids vls. (id : ℕ) → contains nat_cmp ids id ≡ list_any (λ vl. vl.link.id.0 == id) vls };

    fn review(&self, ids: &mut BTreeSet<usize>, i: usize, vl: &Routed) -> Result<(), DescFault> {
        let id = usize::from(vl.link().id.0);
        if ids.contains(&id) {
            return Err(DescFault::DoubleName(key_at(Section::Vl, i, Key::Id)));
        }
        ids.insert(id)?;
        Ok(())
    }
}

/// Checks that no two virtual links have one number.
pub fn check_vls(alloc: Global, vls: &[Routed]) -> Result<(), DescFault>
    ensures { Finds result (each double_at_vl vls.now) }
{
    let mut ids = BTreeSet::new(alloc);
    check_each(&Ids {}, &mut ids, vls)
}
