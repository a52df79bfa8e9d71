//! The network of an accepted description.
ghost use Rattle.std.specs.Prelude.{◌≡◌, ◌*◌, ◌<◌, ◌≤◌, true, All, Some, length, map, slice_get};
ghost use Rattle.std.specs.List.Sorted.{IsStrictlyIncreasing};
ghost use Rattle.std.specs.Option.{option_map, option_and_then};
ghost use Rattle.vlink.specs.declared.time.TheConstants.{LATEST_NS};
ghost use Rattle.network_rows.specs.declared.table.TheConstants.{SECOND_NS};
ghost use Rattle.network.specs.declared.limits.TheConstants.{GREATEST_PROCESSES, GREATEST_PORTS, GREATEST_STREAMS};
ghost use Rattle.network.specs.Accepted.{ids_of};
ghost use Rattle.network.specs.Limits.{IsLinkInLimits, IsKindInLimits, IsStreamInLimits};
ghost use Rattle.network.specs.Wiring.{is_end_system};
ghost use Rattle.network.specs.Trees.{source_of, destinations_of};
ghost use Rattle.network.specs.Faults.{process_count};
ghost use Rattle.network.specs.Lines.{lines_of, node_name, line_name, outages_of, departures_of, arrivals_of, place_of_vl};
ghost use Rattle.network.specs.Plan.{node_plan};
ghost use Rattle.network.specs.Code.Tables.{plan_with, AreTables};

use crate::plan::{Numbered, VlStream};
use crate::tables::Tables;
use crate::wiring::{LinePlan, Outage, Way};
use row_types::{NodeKind, NodeRow, VirtualLink};
use std::marker::Model;
use vlink::{Time, VlId, process_number};

/// A network: end systems, switches, the links between them, virtual links with their paths, and streams of offers to them.
///
/// Clauses see it as its plan. Its virtual links ascend by number.
pub struct Network {
    until: Time,
    seed: u64,
    nodes: Vec<NodeRow>,
    numbered: Numbered,
    tables: Tables,
}

impl Model for Network {
    ghost use Rattle.network.specs.Plan.{Plan};
    ghost use Rattle.network.specs.Accepted.{IsAccepted};
    ghost use Rattle.network.specs.Code.Tables.{plan_with, AreTables};

    ghost Value = { Plan };

    ghost view = { λ n. plan_with n.until n.seed n.nodes.items n.numbered };

    ghost invariant = { λ n. let plan = plan_with n.until n.seed n.nodes.items n.numbered in IsAccepted plan × AreTables plan n.tables };
}

impl Drop for Network {
    fn drop(self) {
        let Self {
            until: _,
            seed: _,
            nodes: _,
            numbered: _,
            tables: _,
        } = self;
    }
}

impl Network {
    ghost use Rattle.network.specs.Accepted.{IsAccepted};
    ghost use Rattle.network.specs.Code.Tables.{plan_with, AreTables};

    /// Makes a network of these parts: rows without a fault, and the tables that follow from them.
    pub fn new(
        until: Time,
        seed: u64,
        nodes: Vec<NodeRow>,
        numbered: Numbered,
        tables: Tables,
    ) -> Self
        requires accepted { IsAccepted (plan_with until seed nodes.items numbered) }
        requires tables { AreTables (plan_with until seed nodes.items numbered) tables }
        ensures { result ≡ plan_with until seed nodes.items numbered }
    {
        Network {
            until,
            seed,
            nodes,
            numbered,
            tables,
        }
    }

    /// Every network comes from rows without a fault, within the limits of their keys.
    pub fn accepted_law(&self)
        ensures { IsAccepted self.now }
    {
        let _fields = &self.numbered;
    }

    /// Returns the rows of the nodes.
    pub fn nodes(&self) -> &[NodeRow]
        ensures { map node_plan result.now ≡ self.now.nodes }
    {
        self.nodes.as_slice()
    }

    /// Returns the contents of the other rows, with numbers in place of names.
    pub fn numbered(&self) -> &Numbered
        ensures links { result.now.links.items ≡ self.now.links }
        ensures outages { result.now.outages.items ≡ self.now.outages }
        ensures vls { result.now.vls.items ≡ self.now.vls }
        ensures streams { result.now.streams.items ≡ self.now.streams }
    {
        &self.numbered
    }

    /// Returns the tables that answer questions by number.
    pub fn tables(&self) -> &Tables
        ensures { AreTables self.now result.now }
    {
        &self.tables
    }

    /// Returns the end of a run, which is its last moment.
    pub fn until(&self) -> Time
        ensures value { result ≡ self.now.until }
        ensures least { 1 ≤ result }
        ensures greatest { result ≤ LATEST_NS }
    {
        self.until
    }

    /// Returns the seed of the drawn numbers.
    pub fn seed(&self) -> u64
        ensures { result ≡ self.now.seed }
    {
        self.seed
    }

    /// Returns the number of nodes. They are the processes 0, 1, ..
    pub fn node_count(&self) -> usize
        ensures { result ≡ length self.now.nodes }
    {
        self.nodes.len()
    }

    /// Returns the number of lines: two for each link. Line `k` is process `k` behind the nodes.
    pub fn line_count(&self) -> usize
        ensures value { result ≡ length (lines_of self.now) }
        ensures links { length (lines_of self.now) ≡ 2 * length self.now.links }
    {
        self.tables.lines.len()
    }

    /// Returns the number of processes: the nodes, and behind them the lines.
    pub fn process_count(&self) -> u16
        ensures value { result ≡ process_count self.now }
        ensures few { process_count self.now ≤ GREATEST_PROCESSES }
    {
        process_number(self.nodes.len() + 2 * self.numbered.links.len())
    }

    /// Returns the kind of the node at this place.
    pub fn kind(&self, node: usize) -> NodeKind
        requires { node < length self.now.nodes }
        ensures value { option_map (λ node. node.kind) (slice_get self.now.nodes node) ≡ Some result }
        ensures limits { IsKindInLimits result }
    {
        self.nodes[node].kind
    }

    /// Returns how many bytes may wait at each port of the node at this place.
    pub fn port_bytes(&self, node: usize) -> u32
        requires { node < length self.now.nodes }
        ensures { option_map (λ node. node.port_bytes) (slice_get self.now.nodes node) ≡ Some result }
    {
        self.nodes[node].port_bytes
    }

    /// Returns the name of the node at this place.
    pub fn node_name(&self, node: usize) -> &str
        requires { node < length self.now.nodes }
        ensures { result.now ≡ node_name self.now.nodes node }
    {
        self.nodes[node].name.as_str()
    }

    /// Returns the name of a line: those of its nodes with > between.
    pub fn line_name(&self, line: usize) -> &str
        requires { line < length (lines_of self.now) }
        ensures { option_map (line_name self.now.nodes) (slice_get (lines_of self.now) line) ≡ Some result.now }
    {
        self.tables.line_names[line].as_str()
    }

    /// Returns a line: its nodes, its ports there, and its times.
    pub fn line(&self, line: usize) -> LinePlan
        requires { line < length (lines_of self.now) }
        ensures value { slice_get (lines_of self.now) line ≡ Some result }
        ensures from { result.from < length self.now.nodes }
        ensures to { result.to < length self.now.nodes }
        ensures from_port { result.from_port < GREATEST_PORTS }
        ensures to_port { result.to_port < GREATEST_PORTS }
        ensures byte { 1 ≤ result.byte_ns }
        ensures greatest_byte { result.byte_ns ≤ 800 }
        ensures propagation { 1 ≤ result.propagation_ns }
        ensures greatest_propagation { result.propagation_ns ≤ SECOND_NS }
    {
        self.tables.lines[line]
    }

    /// Returns the outages of a line, in the order of their rows.
    pub fn outages(&self, line: usize) -> &[Outage]
        requires { line < length (lines_of self.now) }
        ensures { result.now ≡ outages_of self.now line }
    {
        self.tables.outages[line].as_slice()
    }

    /// Returns the number of virtual links. They have the places 0, 1, .. in the order of their numbers.
    pub fn vl_count(&self) -> usize
        ensures value { result ≡ length self.now.vls }
        ensures rising { IsStrictlyIncreasing (ids_of self.now.vls) }
    {
        self.numbered.vls.len()
    }

    /// Returns the place of the virtual link with this number, or none if no virtual link has it.
    pub fn place_of(&self, id: VlId) -> Option<usize>
        ensures { result ≡ place_of_vl self.now.vls id.0 }
    {
        match self.tables.places.get(usize::from(id.0)) {
            Some(place) => *place,
            None => None,
        }
    }

    /// Returns the parameters of the virtual link at this place.
    pub fn virtual_link(&self, vl: usize) -> VirtualLink
        requires { vl < length self.now.vls }
        ensures value { option_map (λ vl. vl.link) (slice_get self.now.vls vl) ≡ Some result }
        ensures limits { IsLinkInLimits result }
    {
        self.numbered.vls[vl].link()
    }

    /// Returns the streams that have rows of their own, in the order of their rows.
    pub fn streams(&self) -> &[VlStream]
        ensures value { result.now ≡ self.now.streams }
        ensures few { length self.now.streams ≤ GREATEST_STREAMS }
        ensures limits { All (λ s. IsStreamInLimits s.stream) self.now.streams }
    {
        self.numbered.streams.as_slice()
    }

    /// Returns the source of a virtual link: the number of an end system.
    pub fn source(&self, vl: usize) -> u16
        requires { vl < length self.now.vls }
        ensures value { option_and_then source_of (slice_get self.now.vls vl) ≡ Some result }
        ensures node { result < length self.now.nodes }
        ensures end_system { is_end_system self.now.nodes result ≡ true }
    {
        process_number(self.numbered.vls[vl].source().unwrap())
    }

    /// Returns the destinations of a virtual link: the places of nodes, in ascending order.
    pub fn destinations(&self, vl: usize) -> &[usize]
        requires { vl < length self.now.vls }
        ensures { option_map destinations_of (slice_get self.now.vls vl) ≡ Some result.now }
    {
        self.tables.destinations[vl].as_slice()
    }

    /// Returns the ports by which virtual links leave the node at this place, sorted by the number of the virtual link, then by port.
    ///
    /// At a switch these are the output ports of each virtual link. At an end system they are the networks on which its own virtual links
    /// go out.
    pub fn departures(&self, node: usize) -> &[Way]
        requires { node < length self.now.nodes }
        ensures { result.now ≡ departures_of self.now node }
    {
        self.tables.meetings.departures[node].as_slice()
    }

    /// Returns the ports by which virtual links enter the node at this place, sorted by the number of the virtual link.
    ///
    /// At a switch this is the input port of each virtual link. At an end system these are the networks on which it is a destination.
    pub fn arrivals(&self, node: usize) -> &[Way]
        requires { node < length self.now.nodes }
        ensures { result.now ≡ arrivals_of self.now node }
    {
        self.tables.meetings.arrivals[node].as_slice()
    }
}
