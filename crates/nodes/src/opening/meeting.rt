//! The ports by which a virtual link enters and leaves a node. Only here are ways grouped by virtual link: their ascending numbers show
//! where the next virtual link begins.
ghost use Rattle.std.specs.Prelude.{◌≡◌, ◌<◌, ◌≤◌, ◌++◌, ◌∷◌, All, length, map, take, drop, IfOk, OnOk};
ghost use Rattle.std.specs.List.{flat_map};
ghost use Rattle.network.specs.declared.limits.TheConstants.{GREATEST_PORTS};
ghost use Rattle.network.specs.Words.{IsLinkInLimits};
ghost use Rattle.nodes.specs.rules.Finding.{IsRising};
ghost use Rattle.nodes.specs.rules.Meeting.{ports_by, ways_at, meetings};
ghost use Rattle.nodes.specs.laws.Grouping.{groups, met, all_met};
ghost use Rattle.nodes.specs.laws.Making.{number_met};

use crate::finding::Numbered;
use network::{GREATEST_PORTS, Network, VirtualLink, Way};
use std::alloc::{AllocError, Global};

/// Whether virtual links leave a node or enter it.
#[derive(Clone, Copy)]
pub enum Side {
    Out,
    In,
}

/// A virtual link that leaves a node, or enters it.
#[derive(Clone, Copy)]
pub struct Meeting {
    pub link: VirtualLink,
    /// The first port by which it does so.
    pub first: u8,
    /// Whether it does so by the port with this place.
    pub ports: [bool; GREATEST_PORTS],
}

impl Numbered for Meeting {
    ghost number = { number_met };

    fn number(&self) -> u16 {
        self.link.id.0
    }
}

/// Returns how many of these ways belong to the virtual link of the first one. The ways of one virtual link stand together.
fn group_len(ways: &[Way]) -> usize
    requires { 1 ≤ length ways.now }
    ensures least { 1 ≤ result }
    ensures within { result ≤ length ways.now }
    ensures group { groups ways.now ≡ take result ways.now ∷ groups (drop result ways.now) }
{
    let vl = ways[0].vl;
    for (i, way) in ways.iter().enumerate() {
        if way.vl != vl {
            return i;
        }
    }
    ways.len()
}

/// Returns, for each port, whether one of these ways uses it.
fn ports_by(ways: &[Way]) -> [bool; GREATEST_PORTS]
    requires { All (λ way. way.port < GREATEST_PORTS) ways.now }
    ensures { result ≡ ports_by ways.now }
{
    let mut ports = [false; GREATEST_PORTS];
    for way in ways {
        ports[usize::from(way.port)] = true;
    }
    ports
}

/// Appends the virtual link of these ways.
fn meet(meetings: &mut Vec<Meeting>, network: &Network, ways: &[Way]) -> Result<(), AllocError>
    requires ports { All (λ way. way.port < GREATEST_PORTS) ways.now }
    requires limits { All (λ m. IsLinkInLimits m.link) meetings.old.items }
    ensures met { OnOk result (meetings.new.items ≡ meetings.old.items ++ met network.now ways.now) }
    ensures limits { OnOk result (All (λ m. IsLinkInLimits m.link) meetings.new.items) }
{
    let Some(way) = ways.first() else {
        return Ok(());
    };
    let Some(place) = network.place_of(way.vl) else {
        return Ok(());
    };
    let link = network.virtual_link(place);
    // The check of the loan of `meetings` has to see these types.
    let own = link.own;
    let _size = own.last_size;
    meetings.push(Meeting {
        link,
        first: way.port as u8,
        ports: ports_by(ways),
    })?;
    Ok(())
}

/// Returns the virtual links of these ways. The ways of one virtual link stand together.
fn all_met(alloc: Global, network: &Network, ways: &[Way]) -> Result<Vec<Meeting>, AllocError>
    requires { All (λ way. way.port < GREATEST_PORTS) ways.now }
    ensures met { IfOk result (λ found. found.items ≡ all_met network.now ways.now) }
    ensures limits { IfOk result (λ found. All (λ m. IsLinkInLimits m.link) found.items) }
{
    let mut found = Vec::new(alloc);
    let mut rest = ways;
    while !rest.is_empty() {
        let (group, later) = rest.split_at(group_len(rest));
        meet(&mut found, network, group)?;
        rest = later;
    }
    Ok(found)
}

/// Returns the ways by which virtual links leave a node or enter it.
fn ways_at(network: &Network, node: u16, side: Side) -> &[Way]
    requires { node < length network.now.nodes }
    ensures { result.now ≡ flat_map (ways_at network.now node side) network.now.vls }
{
    match side {
        Side::Out => network.departures(usize::from(node)),
        Side::In => network.arrivals(usize::from(node)),
    }
}

/// Returns the virtual links that leave a node or enter it, sorted by number.
pub fn meetings(
    alloc: Global,
    network: &Network,
    node: u16,
    side: Side,
) -> Result<Vec<Meeting>, AllocError>
    requires { node < length network.now.nodes }
    ensures meetings { IfOk result (λ found. found.items ≡ meetings network.now node side) }
    ensures rising { IfOk result (λ found. IsRising (map number_met found.items)) }
    ensures limits { IfOk result (λ found. All (λ m. IsLinkInLimits m.link) found.items) }
{
    network.accepted_law();
    all_met(alloc, network, ways_at(network, node, side))
}
