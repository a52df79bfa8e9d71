//! Makes the rows with numbers in place of names if they form a network, or finds the first fault between rows.
ghost use Rattle.std.specs.Prelude.{◌≡◌, ◌++◌, map, IfOk};
ghost use Rattle.network.specs.Rows.{each};
ghost use Rattle.network.specs.Plan.{node_plan};
ghost use Rattle.network.specs.Faults.{faults_of, unknown_names, double_names, not_links, not_trees, too_many, double_at_node, double_at_link, double_at_vl};
ghost use Rattle.network_paths.specs.Findings.{Finds};
ghost use Rattle.network_faults.specs.Packed.{packed_lists_of, packed_lists_in};
ghost use Rattle.network_faults.specs.RowLists.{row_lists_of, row_lists_in, plan_in, Gives};

use crate::compaction::{join_free_pieces, moved};
use crate::double;
use crate::links::Joined;
use crate::names::Names;
use crate::no_link::check_no_link;
use crate::no_tree::check_no_tree;
use crate::packing::PackedRows;
use crate::too_many::check_too_many;
use crate::unknown::number_rows;
use crate::unpacking::unpacked;
use network::Numbered;
use network_rows::{DescFault, Rows};
use row_types::NodeRow;
use std::alloc::{AllocError, Global};

/// Makes the rows with numbers in place of names, if they form a network, and returns its nodes with them.
///
/// It drops the other rows before it makes the lists of the network. So no list lies between pieces of the rows, and the C library gives
/// back what they took.
pub fn numbered_of(alloc: Global, rows: Rows) -> Result<(Vec<NodeRow>, Numbered), DescFault>
    ensures numbered { Gives (λ made. row_lists_of made.1) result (faults_of rows) (row_lists_in rows) }
    ensures nodes { IfOk result (λ made. made.0.items ≡ rows.nodes) }
{
    let packed = packed_of(alloc, &rows)?;
    let nodes = nodes_alone(alloc, rows)?;
    let numbered = unpacked(alloc, packed)?;
    check_rows(alloc, nodes.as_slice(), &numbered)?;
    Ok((nodes, numbered))
}

/// Packs the rows with numbers in place of names, if each key and each name is known. The names take memory last, and are dropped first.
fn packed_of(alloc: Global, rows: &Rows) -> Result<PackedRows, DescFault>
    ensures { Gives packed_lists_of result (unknown_names rows.now) (packed_lists_in (row_lists_in rows.now)) }
{
    let mut packed = PackedRows::none(alloc, rows)?;
    let names = Names::new(alloc, rows.nodes.as_slice())?;
    number_rows(alloc, &mut packed, &names, rows)?;
    Ok(packed)
}

/// Drops the rows, and moves their nodes, which were made behind the whole tree, to the front of the heap. Links and outages lie behind the
/// nodes and are dropped last, so that nothing is moved there.
fn nodes_alone(alloc: Global, rows: Rows) -> Result<Vec<NodeRow>, AllocError>
    ensures { IfOk result (λ nodes. nodes.items ≡ rows.nodes) }
{
    let vls = rows.vls.as_slice().len();
    drop(rows.vls);
    join_free_pieces(alloc, vls)?;
    let nodes = moved(alloc, rows.nodes.into_vec())?;
    drop(rows.links);
    drop(rows.outages);
    drop(rows.streams);
    Ok(nodes)
}

/// Checks rows with numbers in place of names, which belong to these nodes.
fn check_rows(alloc: Global, nodes: &[NodeRow], numbered: &Numbered) -> Result<(), DescFault>
    ensures { Finds result
        (double_names (plan_in nodes.now numbered.now)
        ++ not_links (plan_in nodes.now numbered.now)
        ++ not_trees (plan_in nodes.now numbered.now)
        ++ too_many (plan_in nodes.now numbered.now)) }
{
    let names = Names::new(alloc, nodes)?;
    check_numbered(alloc, &names, numbered)
}

/// Checks rows with numbers in place of names: no double names, only links that are allowed, paths that are trees, and numbers within the
/// limits.
fn check_numbered(alloc: Global, names: &Names, numbered: &Numbered) -> Result<(), DescFault>
    ensures { Finds result
        (double_names (plan_in names.now.nodes.now numbered.now)
        ++ not_links (plan_in names.now.nodes.now numbered.now)
        ++ not_trees (plan_in names.now.nodes.now numbered.now)
        ++ too_many (plan_in names.now.nodes.now numbered.now)) }
{
    let joined = join_links(alloc, names, numbered)?;
    check_no_link(alloc, names.nodes, &joined, numbered)?;
    check_no_tree(alloc, names.nodes, numbered.vls.as_slice())?;
    check_too_many(
        alloc,
        names.nodes,
        numbered.links.as_slice(),
        numbered.outages.len(),
        numbered.vls.as_slice(),
        numbered.streams.len(),
    )
}

/// Indexes the links, after a check that no name, no pair of nodes and no number of a virtual link occurs twice.
fn join_links<'a>(
    alloc: Global,
    names: &Names,
    numbered: &'a Numbered,
) -> Result<Joined<'a>, DescFault>
    ensures { Gives (λ joined. joined.links.now) result
        (each double_at_node (map node_plan names.now.nodes.now) ++ each double_at_link numbered.now.links.items ++ each double_at_vl numbered.now.vls.items)
        numbered.now.links.items }
{
    double::check_nodes(names)?;
    let joined = Joined::new(alloc, numbered.links.as_slice())?;
    double::check_links(&joined)?;
    double::check_vls(alloc, numbered.vls.as_slice())?;
    Ok(joined)
}
