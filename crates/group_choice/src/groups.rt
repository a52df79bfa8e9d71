//! The group of each process.
ghost use Rattle.std.specs.Prelude.{◌≡◌, ◌≢◌, ◌<◌, ◌≤◌, true, false, None, All, length, IfOk};
ghost use Rattle.network.specs.Faults.{process_count};
ghost use Rattle.group_choice.specs.Groups.{HaveProcesses, group_count, run_groups};

use crate::clusters::Clusters;
use crate::dealing::deal;
use crate::flows::{add, flows_of, least, loads_of, rates_of, sum_at};
use crate::joining::join_all;
use crate::matrix::Matrix;
use crate::moving::Owners;
use crate::node_flows::NodeFlows;
use crate::packing::{Packed, group_of, pack};
use network::Network;
use std::alloc::{AllocError, Global};
use vlink::process_number;

/// In a network of at most this many processes each process is a group, unless a number of groups is asked for: such networks serve to try
/// and to observe meetings of processes.
const FEW_PROCESSES: u16 = 16;

/// The greatest number of groups of a network with more processes, unless a number of groups is asked for.
const MOST_GROUPS: u16 = 64;

/// Returns the number of groups if `asked` are asked for: at least one, and no more than processes. A network without a process has none.
pub fn groups_asked(network: &Network, asked: u16) -> u16
    ensures { result ≡ group_count (process_count network.now) asked }
{
    asked.max(1).min(network.process_count())
}

/// Returns the number of groups of a run of the network by this number of workers. If a number is asked for, it is that number, but at
/// least one, and no more than processes. Otherwise each of at most 16 processes is a group, and more processes are in two groups a worker,
/// at most 64: so each worker has an order of groups to keep, and a worker without work has a group to take. A network without a process
/// has no group.
pub fn group_number(network: &Network, workers: u8, asked: Option<u8>) -> u16
    ensures { result ≡ run_groups (process_count network.now) workers asked }
{
    match asked {
        Some(groups) => groups_asked(network, u16::from(groups)),
        None => usual_number(network, workers),
    }
}

/// Returns the number of groups if none is asked for.
fn usual_number(network: &Network, workers: u8) -> u16
    ensures { result ≡ run_groups (process_count network.now) workers None }
{
    let processes = network.process_count();
    if processes <= FEW_PROCESSES {
        processes
    } else {
        groups_asked(network, (u16::from(workers) * 2).min(MOST_GROUPS))
    }
}

/// Returns the group of each process of the network, by its number, for this number of groups, from 0. Each end system goes with a switch.
/// Switches with much traffic between them go together while a group can take both. A line goes with the node to which it leads. If there
/// are more groups than nodes, processes go to them in turn. Only memory can be refused.
pub fn groups_of(alloc: Global, network: &Network, groups: u16) -> Result<Vec<u16>, AllocError>
    requires { 1 ≤ groups }
    ensures all { IfOk result (λ places. length places.items ≡ process_count network.now) }
    ensures within { IfOk result (λ places. All (λ group. group < groups) places.items) }
    ensures used { IfOk result (λ places. groups ≤ process_count network.now → HaveProcesses groups places.items) }
{
    if usize::from(groups) > network.node_count() {
        return in_turn(alloc, network.process_count(), groups);
    }
    let owners = owners_in(alloc, network, usize::from(groups))?;
    if !have_nodes(&owners.of, groups, network.node_count()) {
        drop(owners);
        return in_turn(alloc, network.process_count(), groups);
    }
    let places = places_of(alloc, network, &owners.of, groups);
    drop(owners);
    places
}

/// Whether `owners` has the group of each of so many nodes, and each of so many groups has a node.
fn have_nodes(owners: &[usize], groups: u16, nodes: usize) -> bool
    ensures each { result ≡ true → length owners.now ≡ nodes }
    ensures used { result ≡ true → HaveProcesses groups owners.now }
{
    for group in 0..groups {
        if is_without_node(owners, usize::from(group)) {
            return false;
        }
    }
    owners.len() == nodes
}

/// Whether each node is in another group.
fn is_without_node(owners: &[usize], group: usize) -> bool
    ensures { result ≡ false → ¬ (All (λ owner. owner ≢ group) owners.now) }
{
    for owner in owners {
        if *owner == group {
            return false;
        }
    }
    true
}

/// Gives the processes to the groups in turn.
fn in_turn(alloc: Global, processes: u16, groups: u16) -> Result<Vec<u16>, AllocError>
    requires { 1 ≤ groups }
    ensures all { IfOk result (λ places. length places.items ≡ processes) }
    ensures within { IfOk result (λ places. All (λ group. group < groups) places.items) }
    ensures used { IfOk result (λ places. groups ≤ processes → HaveProcesses groups places.items) }
{
    let mut places = Vec::with_capacity(alloc, usize::from(processes))?;
    for process in 0..processes {
        places.push(process % groups)?;
    }
    Ok(places)
}

/// Returns the group of each process from the group of each node: a line has that of the node to which it leads.
fn places_of(
    alloc: Global,
    network: &Network,
    owners: &[usize],
    groups: u16,
) -> Result<Vec<u16>, AllocError>
    requires least { 1 ≤ groups }
    requires each { length owners.now ≡ length network.now.nodes }
    requires used { HaveProcesses groups owners.now }
    ensures all { IfOk result (λ places. length places.items ≡ process_count network.now) }
    ensures within { IfOk result (λ places. All (λ group. group < groups) places.items) }
    ensures used { IfOk result (λ places. HaveProcesses groups places.items) }
{
    let last = usize::from(groups) - 1;
    let mut places = Vec::with_capacity(alloc, usize::from(network.process_count()))?;
    for node in 0..network.node_count() {
        places.push(process_number(owners[node].min(last)))?;
    }
    for line in 0..network.line_count() {
        let to = usize::from(network.line(line).to);
        places.push(process_number(group_at(owners, to).min(last)))?;
    }
    Ok(places)
}

/// Returns the group of a node.
fn group_at(owners: &[usize], node: usize) -> usize {
    match owners.get(node) {
        Some(group) => *group,
        None => 0,
    }
}

/// Returns the group of each node of a network.
fn owners_in(alloc: Global, network: &Network, groups: usize) -> Result<Owners, AllocError>
    requires { 1 ≤ groups }
{
    let rates = rates_of(alloc, network)?;
    let lines = flows_of(alloc, network, &rates)?;
    let loads = loads_of(alloc, network, &rates, &lines)?;
    let flows = NodeFlows::new(alloc, &lines, network.node_count())?;
    drop(lines);
    drop(rates);
    owners_of(alloc, network, &flows, &loads, groups)
}

/// Does the same, if the traffic of the lines and the load of the nodes are known.
fn owners_of(
    alloc: Global,
    network: &Network,
    flows: &NodeFlows,
    loads: &[u64],
    groups: usize,
) -> Result<Owners, AllocError>
    requires { 1 ≤ groups }
{
    let mut clusters = Clusters::new(alloc, network, flows, loads)?;
    let owners = if groups > clusters.sums.len() {
        deal(alloc, loads, groups)
    } else {
        let even = all(loads) / groups as u64;
        join_and_pack(alloc, &mut clusters, network, flows, loads, groups, even)
    };
    drop(clusters);
    owners
}

/// Does the same, if there are no more groups than clusters; each group gets a load of about `even`.
fn join_and_pack(
    alloc: Global,
    clusters: &mut Clusters,
    network: &Network,
    flows: &NodeFlows,
    loads: &[u64],
    groups: usize,
    even: u64,
) -> Result<Owners, AllocError> {
    let most = even.saturating_add(even / 20);
    let between = join_all(alloc, clusters, flows, groups, most)?;
    let packed = pack_homes(
        alloc,
        clusters,
        &between,
        loads,
        groups,
        even.saturating_add(even / 10),
    );
    drop(between);
    let mut owners = packed?;
    owners.improve(alloc, network, flows, loads, most)?;
    Ok(owners)
}

/// Gives each cluster, with its nodes, to a group whose load stays at most `most`, if one does.
fn pack_homes(
    alloc: Global,
    clusters: &Clusters,
    between: &Matrix,
    loads: &[u64],
    groups: usize,
    most: u64,
) -> Result<Owners, AllocError> {
    let mut packed = pack(alloc, clusters, between, groups, most)?;
    let of = homes(alloc, clusters, &mut packed, loads)?;
    Ok(Owners {
        of,
        sums: packed.sums,
    })
}

/// Returns the group of each node from the group of each cluster.
fn homes(
    alloc: Global,
    clusters: &Clusters,
    packed: &mut Packed,
    loads: &[u64],
) -> Result<Vec<usize>, AllocError> {
    let mut of = Vec::with_capacity(alloc, loads.len())?;
    for node in 0..loads.len() {
        let group = match clusters.at(node) {
            Some(cluster) => group_of(packed, cluster),
            None => None,
        };
        of.push(home(&mut packed.sums, group, sum_at(loads, node)))?;
    }
    Ok(of)
}

/// Returns the group that was found for a node. If none was, the node joins the one with the least load.
fn home(sums: &mut [u64], group: Option<usize>, load: u64) -> usize {
    match group {
        Some(group) => group,
        None => {
            let group = least(sums);
            add(sums, group, load);
            group
        }
    }
}

/// Returns the sum of all loads.
fn all(loads: &[u64]) -> u64 {
    let mut sum = 0u64;
    for load in loads {
        sum = sum.saturating_add(*load);
    }
    sum
}
