//! Links that are not allowed, and outages and paths that go where no link is.
ghost use Rattle.std.specs.Prelude.{◌≡◌, ℕ, ⊤, List, ◌||◌, ◌++◌, map, not, OnOk};
ghost use Rattle.std.specs.List.{list_any};
ghost use Rattle.std.specs.Ordering.{nat_cmp};
ghost use Rattle.std.specs.BTreeSet.{contains};
ghost use Rattle.vlink.specs.declared.frame.Net.TheVariants.{A, B};
ghost use Rattle.network.specs.declared.wiring.Link.{Link};
ghost use Rattle.network.specs.Rows.{each};
ghost use Rattle.network.specs.Plan.{node_plan};
ghost use Rattle.network.specs.Wiring.{leads, is_second, is_no_link, is_linked};
ghost use Rattle.network.specs.Trees.{hops_of, hops_after};
ghost use Rattle.network.specs.Faults.{has_gap, is_gap, no_link_at_link, no_link_at_outage, no_link_at_vl};
ghost use Rattle.network_paths.specs.Findings.{Finds};
ghost use Rattle.network_faults.specs.Lookups.{AreAttached};
ghost use Rattle.network.specs.Code.Views.{items_of};

use crate::each::{Review, check_each, key_at};
use crate::links::Joined;
use network::{Link, Numbered, Outage, Routed};
use network_paths::{is_end_system, is_switch_of};
use network_rows::{DescFault, Key, Section};
use row_types::NodeRow;
use std::alloc::{AllocError, Global};
use std::collections::BTreeSet;
use vlink::Net;

/// The nodes that links join to a switch of network A, and those that links join to a switch of network B.
#[derive(Drop)]
struct Attached {
    on_a: BTreeSet<usize>,
    on_b: BTreeSet<usize>,
}

/// Whether the link is a second one of an end system on this network. `attached` has the nodes that already have a link to a switch of it.
fn is_second(nodes: &[NodeRow], net: Net, attached: &BTreeSet<usize>, link: Link) -> bool
    ensures { (earlier : List Link) → AreAttached (map node_plan nodes.now) net attached.now earlier → result ≡ is_second (map node_plan nodes.now) net earlier link }
{
    (is_end_system(nodes, link.a) && is_switch_of(nodes, net, link.b) && attached.contains(&link.a))
        || (is_end_system(nodes, link.b)
            && is_switch_of(nodes, net, link.a)
            && attached.contains(&link.b))
}

/// Adds the nodes that the link joins to a switch of this network.
fn attach(
    nodes: &[NodeRow],
    net: Net,
    attached: &mut BTreeSet<usize>,
    link: Link,
) -> Result<(), AllocError>
    ensures { OnOk result ((n : ℕ) → contains nat_cmp attached.new n ≡ (contains nat_cmp attached.old n || leads (map node_plan nodes.now) net n link)) }
{
    if is_switch_of(nodes, net, link.b) {
        attached.insert(link.a)?;
    }
    if is_switch_of(nodes, net, link.a) {
        attached.insert(link.b)?;
    }
    Ok(())
}

/// Whether the link is not allowed. `on_a` and `on_b` have the nodes that already have a link to a switch of network A and of network B.
fn is_no_link(nodes: &[NodeRow], on_a: &BTreeSet<usize>, on_b: &BTreeSet<usize>, link: Link) -> bool
    ensures { (earlier : List Link) → AreAttached (map node_plan nodes.now) A on_a.now earlier → AreAttached (map node_plan nodes.now) B on_b.now earlier →
        result ≡ is_no_link (map node_plan nodes.now) earlier link }
{
    link.a == link.b
        || (is_end_system(nodes, link.a) && is_end_system(nodes, link.b))
        || (is_switch_of(nodes, Net::A, link.a) && is_switch_of(nodes, Net::B, link.b))
        || (is_switch_of(nodes, Net::B, link.a) && is_switch_of(nodes, Net::A, link.b))
        || is_second(nodes, Net::A, on_a, link)
        || is_second(nodes, Net::B, on_b, link)
}

/// Checks that links between these nodes are allowed.
#[derive(Drop)]
struct Links<'a> {
    nodes: &'a [NodeRow],
}

impl<'a> Review for Links<'a> {
    type Row = Link;

    type Seen = Attached;

    ghost faults = { λ s. no_link_at_link (map node_plan s.nodes.now) };

    ghost saw = { λ s attached links. AreAttached (map node_plan s.nodes.now) A attached.on_a links × AreAttached (map node_plan s.nodes.now) B attached.on_b links };

    fn review(&self, attached: &mut Attached, i: usize, link: &Link) -> Result<(), DescFault> {
        if is_no_link(self.nodes, &attached.on_a, &attached.on_b, *link) {
            return Err(DescFault::NotALink(key_at(Section::Link, i, Key::B)));
        }
        attach(self.nodes, Net::A, &mut attached.on_a, *link)?;
        attach(self.nodes, Net::B, &mut attached.on_b, *link)?;
        Ok(())
    }
}

/// Checks that each outage is of a link.
#[derive(Drop)]
struct Outages<'a, 'b> {
    joined: &'a Joined<'b>,
}

impl<'a, 'b> Review for Outages<'a, 'b> {
    type Row = Outage;

    type Seen = ();

    ghost faults = { λ s. no_link_at_outage s.joined.now.links.now };

    ghost saw = { λ _ _ _. ⊤ };

    fn review(&self, _seen: &mut (), i: usize, outage: &Outage) -> Result<(), DescFault> {
        if self.joined.place(outage.from, outage.to).is_none() {
            return Err(DescFault::NotALink(key_at(Section::Outage, i, Key::To)));
        }
        Ok(())
    }
}

/// Whether two neighbours of the path that begins with `from` have no link.
fn has_gap_after(joined: &Joined, from: usize, others: &[usize]) -> bool
    ensures { result ≡ list_any (is_gap joined.now.links.now) (hops_after from others.now) }
{
    let mut from = from;
    for to in others {
        if joined.place(from, *to).is_none() {
            return true;
        }
        from = *to;
    }
    false
}

/// Whether two neighbours of a path have no link.
fn is_gapped(joined: &Joined, path: &[usize]) -> bool
    ensures { result ≡ list_any (is_gap joined.now.links.now) (hops_of path.now) }
{
    match path.split_first() {
        Some((first, others)) => has_gap_after(joined, *first, others),
        None => false,
    }
}

/// Whether two neighbours on one of these paths have no link.
fn has_gap(joined: &Joined, paths: &[Vec<usize>]) -> bool
    ensures { result ≡ has_gap joined.now.links.now (map items_of paths.now) }
{
    for path in paths {
        if is_gapped(joined, path.as_slice()) {
            return true;
        }
    }
    false
}

/// Checks that the neighbours on each path have a link.
#[derive(Drop)]
struct Vls<'a, 'b> {
    joined: &'a Joined<'b>,
}

impl<'a, 'b> Review for Vls<'a, 'b> {
    type Row = Routed;

    type Seen = ();

    ghost faults = { λ s. no_link_at_vl s.joined.now.links.now };

    ghost saw = { λ _ _ _. ⊤ };

    fn review(&self, _seen: &mut (), i: usize, vl: &Routed) -> Result<(), DescFault> {
        if has_gap(self.joined, vl.a()) {
            return Err(DescFault::NotALink(key_at(Section::Vl, i, Key::A)));
        }
        if has_gap(self.joined, vl.b()) {
            return Err(DescFault::NotALink(key_at(Section::Vl, i, Key::B)));
        }
        Ok(())
    }
}

/// Checks that links are allowed, and that outages and paths go over links.
pub fn check_no_link(
    alloc: Global,
    nodes: &[NodeRow],
    joined: &Joined,
    numbered: &Numbered,
) -> Result<(), DescFault>
    requires { joined.now.links.now ≡ numbered.now.links.items }
    ensures { Finds result
        (each (no_link_at_link (map node_plan nodes.now)) numbered.now.links.items
        ++ each (no_link_at_outage numbered.now.links.items) numbered.now.outages.items
        ++ each (no_link_at_vl numbered.now.links.items) numbered.now.vls.items) }
{
    let mut attached = Attached {
        on_a: BTreeSet::new(alloc),
        on_b: BTreeSet::new(alloc),
    };
    check_each(&Links { nodes }, &mut attached, numbered.links.as_slice())?;
    check_each(&Outages { joined }, &mut (), numbered.outages.as_slice())?;
    check_each(&Vls { joined }, &mut (), numbered.vls.as_slice())
}
