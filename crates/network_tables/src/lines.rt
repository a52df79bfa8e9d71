//! Lines, which are the directions of links: their ports, their names and their outages.
ghost use Rattle.std.specs.Prelude.{◌≡◌, ℕ, ◌+◌, ◌*◌, ◌^◌, ◌<◌, ◌≤◌, [], ◌∷◌, ◌++◌, length, map, filter, cond, All, vec_len, string_bytes, IfOk, OnOk};
ghost use Rattle.vlink.specs.declared.frame.Net.TheVariants.{A};
ghost use Rattle.network.specs.Rows.{each};
ghost use Rattle.network.specs.Plan.{node_plan};
ghost use Rattle.network.specs.Wiring.{is_end_system, is_switch_of};
ghost use Rattle.network.specs.Lines.{both, directions, line_between, node_name, line_name, is_outage_of};
ghost use Rattle.network.specs.Code.Views.{outages_at};

use crate::tables::{no_lists, put};
use network::{LinePlan, Link, Outage};
use network_faults::{Joined, count_link, no_counts};
use network_paths::{is_end_system, is_switch_of};
use row_types::NodeRow;
use std::alloc::{AllocError, Global};
use vlink::{Net, process_number};

/// Returns the port of a node for its link to `other`, if `count` earlier links name the node.
fn port_at(nodes: &[NodeRow], count: usize, node: usize, other: usize) -> u16
    requires { count < 2 ^ 16 }
    ensures { result ≡ cond (is_end_system (map node_plan nodes.now) node) (cond (is_switch_of (map node_plan nodes.now) A other) 0 1) count }
{
    if is_end_system(nodes, node) {
        if is_switch_of(nodes, Net::A, other) {
            0
        } else {
            1
        }
    } else {
        count as u16
    }
}

/// Appends the two directions of a link, which has these ports at its two nodes.
fn push_both(
    lines: &mut Vec<LinePlan>,
    link: Link,
    a_port: u16,
    b_port: u16,
) -> Result<(), AllocError>
    requires a { link.a < 2 ^ 16 }
    requires b { link.b < 2 ^ 16 }
    ensures { OnOk result (lines.new.items ≡ lines.old.items ++ both link a_port b_port) }
{
    let there = LinePlan {
        from: process_number(link.a),
        from_port: a_port,
        to: process_number(link.b),
        to_port: b_port,
        byte_ns: link.byte_ns,
        propagation_ns: link.propagation_ns,
    };
    let back = LinePlan {
        from: process_number(link.b),
        from_port: b_port,
        to: process_number(link.a),
        to_port: a_port,
        byte_ns: link.byte_ns,
        propagation_ns: link.propagation_ns,
    };
    lines.push(there)?;
    lines.push(back)?;
    Ok(())
}

/// Makes the two directions of each link, link by link.
pub fn lines_of(
    alloc: Global,
    nodes: &[NodeRow],
    links: &[Link],
) -> Result<Vec<LinePlan>, AllocError>
    requires ends { All (λ link. (link.a ≤ length nodes.now) × (link.b ≤ length nodes.now)) links.now }
    requires few { length nodes.now + 2 * length links.now ≤ 4096 }
    ensures ends { IfOk result (λ lines. All (λ line. (line.from ≤ length nodes.now) × (line.to ≤ length nodes.now)) lines.items) }
    ensures lines { IfOk result (λ lines. lines.items ≡ each (directions (map node_plan nodes.now)) links.now) }
{
    let mut counts = no_counts(alloc, nodes.len() + 1)?;
    let mut lines = Vec::new(alloc);
    for link in links {
        let a_count = counts[link.a];
        let b_count = counts[link.b];
        let a_port = port_at(nodes, a_count, link.a, link.b);
        let b_port = port_at(nodes, b_count, link.b, link.a);
        push_both(&mut lines, *link, a_port, b_port)?;
        count_link(&mut counts, *link);
    }
    Ok(lines)
}

/// Returns the name of a node, or the empty text if the node does not exist.
fn node_name(nodes: &[NodeRow], n: usize) -> &str
    ensures { result.now ≡ node_name (map node_plan nodes.now) n }
{
    match nodes.get(n) {
        Some(node) => node.name.as_str(),
        None => "",
    }
}

/// Joins the names of two nodes, with > between.
fn name_between(alloc: Global, from: &str, to: &str) -> Result<String, AllocError>
    ensures { IfOk result (λ name. string_bytes name ≡ from.now ++ 62 ∷ to.now) }
{
    let mut name = String::from_str(alloc, from)?;
    name.push_str(">")?;
    name.push_str(to)?;
    Ok(name)
}

/// Makes the name of a line.
fn line_name(alloc: Global, nodes: &[NodeRow], line: LinePlan) -> Result<String, AllocError>
    ensures { IfOk result (λ name. string_bytes name ≡ line_name (map node_plan nodes.now) line) }
{
    let from = node_name(nodes, usize::from(line.from));
    let to = node_name(nodes, usize::from(line.to));
    let name = name_between(alloc, from, to)?;
    Ok(name)
}

/// Makes the names of lines.
pub fn line_names(
    alloc: Global,
    nodes: &[NodeRow],
    lines: &[LinePlan],
) -> Result<Vec<String>, AllocError>
    ensures { IfOk result (λ names. map string_bytes names.items ≡ map (line_name (map node_plan nodes.now)) lines.now) }
{
    let mut names = Vec::new(alloc);
    for line in lines {
        let name = line_name(alloc, nodes, *line)?;
        names.push(name)?;
    }
    Ok(names)
}

/// Returns the line from one node to another, or none if no link joins them.
pub fn line_between(joined: &Joined, from: usize, to: usize) -> Option<usize>
    requires { length joined.now.links.now < 2 ^ 32 }
    ensures { result ≡ line_between joined.now.links.now from to }
{
    let place = joined.place(from, to)?;
    let link = joined.links.get(place)?;
    let back = if link.a == from { 0 } else { 1 };
    Some(2 * place + back)
}

/// Appends an outage to the list of its line, if it has one.
fn put_outage(
    table: &mut Vec<Vec<Outage>>,
    joined: &Joined,
    outage: Outage,
) -> Result<(), AllocError>
    requires { length joined.now.links.now < 2 ^ 32 }
    ensures put { OnOk result ((k : ℕ) → k < vec_len table.old → outages_at table.new k ≡ outages_at table.old k ++ filter (is_outage_of joined.now.links.now k) (outage ∷ [])) }
    ensures len { vec_len table.new ≡ vec_len table.old }
{
    match line_between(joined, outage.from, outage.to) {
        Some(k) if k < table.len() => put(table, k, outage),
        _ => Ok(()),
    }
}

/// Lists the outages of each of `count` lines, in their order.
pub fn outage_table(
    alloc: Global,
    count: usize,
    joined: &Joined,
    outages: &[Outage],
) -> Result<Vec<Vec<Outage>>, AllocError>
    requires { length joined.now.links.now < 2 ^ 32 }
    ensures outages { IfOk result (λ table. (k : ℕ) → k < count → outages_at table k ≡ filter (is_outage_of joined.now.links.now k) outages.now) }
    ensures len { IfOk result (λ table. vec_len table ≡ count) }
{
    let mut table = no_lists(alloc, count)?;
    for outage in outages {
        put_outage(&mut table, joined, *outage)?;
    }
    Ok(table)
}
