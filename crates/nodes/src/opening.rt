//! Makes all processes of a network in their opening states.
ghost use Rattle.std.specs.Prelude.{◌≡◌, ◌<◌, length, slice_get, IfOk};
ghost use Rattle.network.specs.declared.limits.TheConstants.{GREATEST_PORTS};
ghost use Rattle.network.specs.Words.{process_count, lines_of};
ghost use Rattle.nodes.specs.rules.Opening.{end_system_opening, switch_opening, line_opening, equipment_opening, opening};

mod making;
mod meeting;
mod wiring;

use crate::end_system::EndSystem;
use crate::equipment::Equipment;
use crate::finding::numbers_of;
use crate::line::Line;
use crate::node::Node;
use crate::switch::Switch;
use making::{receptions_of, sources_of, transits_of};
use meeting::{Side, meetings};
use network::{GREATEST_PORTS, Network, NodeKind};
use std::alloc::{AllocError, Global};
use wiring::ports_of;

/// Makes an end system, at each of whose ports at most `port_bytes` bytes may wait.
fn end_system(
    alloc: Global,
    network: &Network,
    node: u16,
    bytes: u32,
) -> Result<EndSystem, AllocError>
    requires { node < length network.now.nodes }
    ensures { IfOk result (λ s. s ≡ end_system_opening network.now node bytes) }
{
    let sent = meetings(alloc, network, node, Side::Out)?;
    let received = meetings(alloc, network, node, Side::In)?;
    let sources = sources_of(alloc, &sent)?;
    let receptions = receptions_of(alloc, &received)?;
    let source_numbers = numbers_of(alloc, sources.as_slice())?;
    let reception_numbers = numbers_of(alloc, receptions.as_slice())?;
    let ports = ports_of(alloc, network, node, 2, bytes)?;
    Ok(EndSystem::new(
        sources,
        source_numbers,
        receptions,
        reception_numbers,
        ports,
    ))
}

/// Makes a switch with this delay, at each of whose ports at most `port_bytes` bytes may wait.
fn switch(
    alloc: Global,
    network: &Network,
    node: u16,
    latency_ns: u32,
    bytes: u32,
) -> Result<Switch, AllocError>
    requires { node < length network.now.nodes }
    ensures { IfOk result (λ s. s ≡ switch_opening network.now node latency_ns bytes) }
{
    network.accepted_law();
    let arriving = meetings(alloc, network, node, Side::In)?;
    let departing = meetings(alloc, network, node, Side::Out)?;
    let transits = transits_of(alloc, &arriving, &departing)?;
    let numbers = numbers_of(alloc, transits.as_slice())?;
    let ports = ports_of(alloc, network, node, GREATEST_PORTS, bytes)?;
    Ok(Switch::new(latency_ns, transits, numbers, ports))
}

/// Makes a line, with its outages.
fn line(alloc: Global, network: &Network, line: usize) -> Result<Line, AllocError>
    requires { line < length (lines_of network.now) }
    ensures { IfOk result (λ s. s ≡ line_opening network.now line (slice_get (lines_of network.now) line)) }
{
    let row = network.line(line);
    let outages = Vec::from_slice(alloc, network.outages(line))?;
    Ok(Line::new(row.to, row.to_port as u8, row.propagation_ns, outages))
}

/// Makes a node.
fn node(alloc: Global, network: &Network, node: u16) -> Result<Equipment, AllocError>
    requires { node < length network.now.nodes }
    ensures { IfOk result (λ equipment. equipment ≡ equipment_opening network.now node (slice_get network.now.nodes node)) }
{
    let place = usize::from(node);
    let bytes = network.port_bytes(place);
    match network.kind(place) {
        NodeKind::EndSystem => Ok(Equipment::EndSystem(end_system(alloc, network, node, bytes)?)),
        NodeKind::Switch { latency_ns, .. } => {
            Ok(Equipment::Switch(switch(alloc, network, node, latency_ns, bytes)?))
        }
    }
}

/// Makes a node, or a line behind the nodes.
fn equipment(alloc: Global, network: &Network, process: u16) -> Result<Equipment, AllocError>
    requires { process < process_count network.now }
    ensures { IfOk result (λ equipment. equipment ≡ equipment_opening network.now process (slice_get network.now.nodes process)) }
{
    let nodes = network.node_count();
    if usize::from(process) < nodes {
        return node(alloc, network, process);
    }
    let _lines = network.line_count();
    let place = usize::from(process) - nodes;
    Ok(Equipment::Line(line(alloc, network, place)?))
}

impl Node {
    /// Makes the process with this number, as it is before any message. All memory is taken here, and lack of it is the only error.
    ///
    /// It looks at each line of the network, and at each virtual link that passes the node.
    pub fn new(alloc: Global, network: &Network, process: u16) -> Result<Self, AllocError>
        requires { process < process_count network.now }
        ensures { IfOk result (λ node. node ≡ opening network.now process) }
    {
        network.accepted_law();
        let equipment = equipment(alloc, network, process)?;
        Ok(Node::of_equipment(process, network.until(), equipment))
    }
}
