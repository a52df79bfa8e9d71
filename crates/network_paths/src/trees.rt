//! Checks whether the paths of a virtual link form a tree.
ghost use Rattle.std.specs.Prelude.{◌≡◌, [], ◌∷◌, ◌++◌, true, List, Contains, MatchBool, map, not, ◌&&◌, ◌||◌, IfOk};
ghost use Rattle.std.specs.List.{list_any};
ghost use Rattle.std.specs.Option.{option_copied};
ghost use Rattle.network.specs.declared.wiring.Hop.{Hop};
ghost use Rattle.vlink.specs.declared.frame.Net.TheVariants.{A, B};
ghost use Rattle.network_rows.specs.declared.fault.DescFault.TheVariants.{NotATree};
ghost use Rattle.network.specs.Rows.{when};
ghost use Rattle.network.specs.Plan.{node_plan};
ghost use Rattle.network.specs.Wiring.{passes, is_end_system, is_switch_of};
ghost use Rattle.network.specs.Trees.{inner_of, is_bad_path, differ, begin_apart, has_double, is_other_way, has_other_way, is_no_tree, is_none, source_among};
ghost use Rattle.network.specs.Code.Views.{items_of};
ghost use Rattle.network_paths.specs.Findings.{Finds, Tests, AreWays, IsFresh};

use crate::paths::{push_all, push_ends};
use network::{Hop, Routed, source_among};
use network_kinds::{is_end_system, is_switch_of};
use network_rows::{DescFault, Place};
use row_types::NodeRow;
use std::alloc::{AllocError, Global};
use std::collections::{HashMap, HashSet};
use vlink::Net;

/// Whether the node exists and is an end system.
fn is_at_end_system(nodes: &[NodeRow], node: Option<&usize>) -> bool
    ensures { result ≡ passes (is_end_system (map node_plan nodes.now)) (option_copied node.entry) }
{
    match node {
        Some(n) => is_end_system(nodes, *n),
        None => false,
    }
}

/// Whether one of these nodes is not a switch of the network.
fn has_other(nodes: &[NodeRow], net: Net, inner: &[usize]) -> bool
    ensures { result ≡ list_any (λ node. not (is_switch_of (map node_plan nodes.now) net node)) inner.now }
{
    for node in inner {
        if !is_switch_of(nodes, net, *node) {
            return true;
        }
    }
    false
}

/// Returns the nodes between the two ends of a path.
fn inner_of(path: &[usize]) -> &[usize]
    ensures { result.now ≡ inner_of path.now }
{
    match path.split_first() {
        Some((_, others)) => match others.split_last() {
            Some((_, inner)) => inner,
            None => others,
        },
        None => path,
    }
}

/// Whether the path does not begin and end at an end system, or an inner node is not a switch of the network, or a node occurs twice.
fn is_bad_path(nodes: &[NodeRow], net: Net, path: &[usize]) -> bool
    ensures { result ≡ is_bad_path (map node_plan nodes.now) net path.now }
{
    !is_at_end_system(nodes, path.first())
        || !is_at_end_system(nodes, path.last())
        || has_other(nodes, net, inner_of(path))
        || has_double(path)
}

/// Whether both exist and differ.
fn differ(x: Option<usize>, y: Option<usize>) -> bool
    ensures { result ≡ differ x y }
{
    match (x, y) {
        (Some(x), Some(y)) => x != y,
        _ => false,
    }
}

/// Whether a number occurs twice. Made for few numbers: it compares each with all behind it.
pub fn has_double(numbers: &[usize]) -> bool
    ensures { result ≡ has_double numbers.now }
{
    let mut rest = numbers;
    while let Some((first, others)) = rest.split_first() {
        if others.contains(first) {
            return true;
        }
        rest = others;
    }
    false
}

/// Whether a number occurs twice. Made for any count of numbers: it looks each one up in `seen`, the set of those before it.
fn has_repeat(seen: &mut HashSet<usize>, numbers: &[usize]) -> Result<bool, AllocError>
    ensures { Tests result (has_double numbers.now) }
{
    seen.clear();
    for n in numbers {
        if !seen.insert(*n)? {
            return Ok(true);
        }
    }
    Ok(false)
}

/// Whether one of these paths is bad, or begins at another node than the first one.
fn has_bad_path(nodes: &[NodeRow], net: Net, paths: &[Vec<usize>]) -> bool
    ensures { result ≡ (list_any (is_bad_path (map node_plan nodes.now) net) (map items_of paths.now) || begin_apart (map items_of paths.now)) }
{
    has_bad(nodes, net, paths) || begin_apart(paths)
}

/// Whether one of these paths is bad.
fn has_bad(nodes: &[NodeRow], net: Net, paths: &[Vec<usize>]) -> bool
    ensures { result ≡ list_any (is_bad_path (map node_plan nodes.now) net) (map items_of paths.now) }
{
    for path in paths {
        if is_bad_path(nodes, net, path.as_slice()) {
            return true;
        }
    }
    false
}

/// Whether two of these paths begin at different nodes.
fn begin_apart(paths: &[Vec<usize>]) -> bool
    ensures { result ≡ begin_apart (map items_of paths.now) }
{
    let source = source_among(paths);
    for path in paths {
        if differ(source, path.first().copied()) {
            return true;
        }
    }
    false
}

/// Whether the hop leads to a node that was reached from another one. If not, the hop is added to `ways`.
fn is_other_way(ways: &mut HashMap<usize, usize>, hop: Hop) -> Result<bool, AllocError>
    ensures { (hops : List Hop) → AreWays ways.old hops → IfOk result (λ other. MatchBool other
        ((s : Hop) × Contains hops s × (is_other_way s hop ≡ true)) (AreWays ways.new (hops ++ hop ∷ []))) }
{
    match ways.get(&hop.to) {
        Some(from) => Ok(*from != hop.from),
        None => {
            ways.insert(hop.to, hop.from)?;
            Ok(false)
        }
    }
}

/// Whether two of these hops lead to one node from different ones. Fills `ways` with the node from which each one is reached.
fn has_other_way(ways: &mut HashMap<usize, usize>, hops: &[Hop]) -> Result<bool, AllocError>
    ensures { Tests result (has_other_way hops.now) }
{
    ways.clear();
    for hop in hops {
        if is_other_way(ways, *hop)? {
            return Ok(true);
        }
    }
    Ok(false)
}

/// Room to examine the paths of one virtual link after another.
#[derive(Drop)]
pub struct Room {
    /// The nodes at which the paths end.
    ends: Vec<usize>,
    seen: HashSet<usize>,
    hops: Vec<Hop>,
    /// The node from which each one is reached.
    ways: HashMap<usize, usize>,
}

impl Room {
    /// Makes room in which nothing is stored yet.
    pub fn new(alloc: Global) -> Self
        ensures { IsFresh result }
    {
        Room {
            ends: Vec::new(alloc),
            seen: HashSet::new(alloc),
            hops: Vec::new(alloc),
            ways: HashMap::new(alloc),
        }
    }
}

/// Whether the paths of one network do not form a tree.
fn is_no_tree(
    room: &mut Room,
    nodes: &[NodeRow],
    net: Net,
    paths: &[Vec<usize>],
) -> Result<bool, AllocError>
    ensures { Tests result (is_no_tree (map node_plan nodes.now) net (map items_of paths.now)) }
{
    if has_bad_path(nodes, net, paths) {
        return Ok(true);
    }
    room.ends.clear();
    push_ends(&mut room.ends, paths)?;
    if has_repeat(&mut room.seen, room.ends.as_slice())? {
        return Ok(true);
    }
    room.hops.clear();
    push_all(&mut room.hops, paths)?;
    has_other_way(&mut room.ways, room.hops.as_slice())
}

/// Checks that the paths of a virtual link are trees from one source. A fault names the place of their network.
pub fn check_trees(
    room: &mut Room,
    nodes: &[NodeRow],
    vl: &Routed,
    on_a: Place,
    on_b: Place,
) -> Result<(), DescFault>
    ensures { Finds result
        (when ((is_none vl.now.a && is_none vl.now.b) || is_no_tree (map node_plan nodes.now) A vl.now.a) (NotATree on_a)
        ++ when (is_no_tree (map node_plan nodes.now) B vl.now.b || differ (source_among vl.now.a) (source_among vl.now.b)) (NotATree on_b)) }
{
    let has_none = vl.a().is_empty() && vl.b().is_empty();
    if has_none || is_no_tree(room, nodes, Net::A, vl.a())? {
        return Err(DescFault::NotATree(on_a));
    }
    let begin_apart = differ(source_among(vl.a()), source_among(vl.b()));
    if is_no_tree(room, nodes, Net::B, vl.b())? || begin_apart {
        return Err(DescFault::NotATree(on_b));
    }
    Ok(())
}
