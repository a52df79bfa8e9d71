//! Finds more processes, ports, outages, destinations or rows of streams than a network may have.
ghost use Rattle.std.specs.Prelude.{◌≡◌, ◌+◌, ◌*◌, ◌≤◌, ⊤, true, length, map, nat_lt, not, ◌&&◌, ◌++◌};
ghost use Rattle.network.specs.Limits.{greatest_processes, greatest_ports, greatest_outages, greatest_destinations, greatest_streams};
ghost use Rattle.network_rows.specs.declared.key.Section.TheVariants.{Outage, Stream};
ghost use Rattle.network_rows.specs.declared.fault.DescFault.TheVariants.{TooMany};
ghost use Rattle.network.specs.Wiring.{is_end_system};
ghost use Rattle.network.specs.Rows.{each, when, top};
ghost use Rattle.network.specs.Plan.{node_plan};
ghost use Rattle.network.specs.Faults.{too_many_at_node, too_many_at_vl};
ghost use Rattle.network_paths.specs.Findings.{Finds};

use crate::destinations::destinations_of;
use crate::each::{Review, check_each, row_at};
use crate::links::link_counts;
use network::{
    GREATEST_DESTINATIONS, GREATEST_OUTAGES, GREATEST_PORTS, GREATEST_PROCESSES, GREATEST_STREAMS,
    Link, Routed,
};
use network_paths::is_end_system;
use network_rows::{DescFault, Place, Section};
use row_types::NodeRow;
use std::alloc::Global;

/// Whether this number of nodes, and two lines for each of this number of links, are more processes than a network may have.
pub fn has_many_processes(nodes: usize, links: usize) -> bool
    ensures { result ≡ nat_lt greatest_processes (nodes + 2 * links) }
{
    nodes > GREATEST_PROCESSES || links > (GREATEST_PROCESSES - nodes) / 2
}

/// Whether the node is a switch, and `count` links are more than it may have ports.
fn has_many_links(nodes: &[NodeRow], n: usize, count: usize) -> bool
    ensures { result ≡ (not (is_end_system (map node_plan nodes.now) n) && nat_lt greatest_ports count) }
{
    !is_end_system(nodes, n) && count > GREATEST_PORTS
}

/// Checks that no switch has more links than it may have ports.
pub fn check_nodes(alloc: Global, nodes: &[NodeRow], links: &[Link]) -> Result<(), DescFault>
    ensures { Finds result (each (too_many_at_node (map node_plan nodes.now) links.now) (map node_plan nodes.now)) }
{
    let counts = link_counts(alloc, nodes.len(), links)?;
    for (i, _) in nodes.iter().enumerate() {
        let count = counts[i];
        if has_many_links(nodes, i, count) {
            return Err(DescFault::TooMany(row_at(Section::Node, i)));
        }
    }
    Ok(())
}

/// Whether the virtual link has no more paths than it may have destinations.
fn has_few_paths(vl: &Routed) -> bool
    ensures { result ≡ true → length vl.now.a + length vl.now.b ≤ greatest_destinations }
{
    vl.a().len() <= GREATEST_DESTINATIONS && vl.b().len() <= GREATEST_DESTINATIONS - vl.a().len()
}

/// Checks that no virtual link has more destinations than it may: either it has no more paths than that, or the check counts its
/// destinations.
#[derive(Drop)]
struct Vls {
    alloc: Global,
}

impl Review for Vls {
    type Row = Routed;

    type Seen = ();

    ghost faults = { λ _. too_many_at_vl };

    ghost saw = { λ _ _ _. ⊤ };

    fn review(&self, _seen: &mut (), i: usize, vl: &Routed) -> Result<(), DescFault> {
        if has_few_paths(vl) {
            return Ok(());
        }
        let destinations = destinations_of(self.alloc, vl)?;
        if destinations.len() > GREATEST_DESTINATIONS {
            return Err(DescFault::TooMany(row_at(Section::Vl, i)));
        }
        Ok(())
    }
}

/// Checks that no more rows of streams are there than may be.
fn check_streams(streams: usize) -> Result<(), DescFault>
    ensures { Finds result (when (nat_lt greatest_streams streams) (TooMany (record { section = Stream; row = Some (greatest_streams + 1); key = None }))) }
{
    if streams > GREATEST_STREAMS {
        return Err(DescFault::TooMany(row_at(Section::Stream, GREATEST_STREAMS)));
    }
    Ok(())
}

/// Checks that processes, ports, outages and destinations are within their limits.
fn check_counts(
    alloc: Global,
    nodes: &[NodeRow],
    links: &[Link],
    outages: usize,
    vls: &[Routed],
) -> Result<(), DescFault>
    ensures { Finds result
        (when (nat_lt greatest_processes (length nodes.now + 2 * length links.now)) (TooMany top)
        ++ each (too_many_at_node (map node_plan nodes.now) links.now) (map node_plan nodes.now)
        ++ when (nat_lt greatest_outages outages) (TooMany (record { section = Outage; row = Some (greatest_outages + 1); key = None }))
        ++ each too_many_at_vl vls.now) }
{
    if has_many_processes(nodes.len(), links.len()) {
        return Err(DescFault::TooMany(Place {
            section: Section::Top,
            row: None,
            key: None,
        }));
    }
    check_nodes(alloc, nodes, links)?;
    if outages > GREATEST_OUTAGES {
        return Err(DescFault::TooMany(row_at(Section::Outage, GREATEST_OUTAGES)));
    }
    check_each(&Vls { alloc }, &mut (), vls)
}

/// Checks that processes, ports, outages, destinations and rows of streams are within their limits.
pub fn check_too_many(
    alloc: Global,
    nodes: &[NodeRow],
    links: &[Link],
    outages: usize,
    vls: &[Routed],
    streams: usize,
) -> Result<(), DescFault>
    ensures { Finds result
        (when (nat_lt greatest_processes (length nodes.now + 2 * length links.now)) (TooMany top)
        ++ each (too_many_at_node (map node_plan nodes.now) links.now) (map node_plan nodes.now)
        ++ when (nat_lt greatest_outages outages) (TooMany (record { section = Outage; row = Some (greatest_outages + 1); key = None }))
        ++ each too_many_at_vl vls.now
        ++ when (nat_lt greatest_streams streams) (TooMany (record { section = Stream; row = Some (greatest_streams + 1); key = None }))) }
{
    check_counts(alloc, nodes, links, outages, vls)?;
    check_streams(streams)
}
