//! Makes the network of some rows, with its tables, or finds their first fault.
ghost use Rattle.std.specs.Prelude.{◌≡◌, IsPermutation, MatchResult, OnOk, IfOk};
ghost use Rattle.std.specs.List.Sorted.{IsNonDecreasing};
ghost use Rattle.network_rows.specs.Within.{AreWithin};
ghost use Rattle.network.specs.Faults.{faults_of, Tells};
ghost use Rattle.network.specs.Accepted.{ids_of, IsPlanOf, IsAccepted};
ghost use Rattle.network.specs.Code.Tables.{plan_with};

use crate::tables::tables_of;
use network::{Network, Numbered, Routed};
use network_faults::numbered_of;
use network_rows::{DescFault, Rows};
use row_types::NodeRow;
use std::alloc::{AllocError, Global};
use vlink::Time;

/// Makes the network that these rows describe.
///
/// An error is the first fault between the rows, or it means that memory was refused.
pub fn network_of(alloc: Global, rows: Rows) -> Result<Network, DescFault>
    requires { AreWithin rows }
    ensures { MatchResult result (IsPlanOf rows) (λ fault. Tells fault (faults_of rows)) }
{
    let until = rows.until;
    let seed = rows.seed;
    let mut made = numbered_of(alloc, rows)?;
    sort_vls(&mut made.1.vls)?;
    let network = network_with(alloc, until, seed, made.0, made.1)?;
    Ok(network)
}

/// Sorts virtual links by their numbers.
fn sort_vls(vls: &mut Vec<Routed>) -> Result<(), AllocError>
    ensures moved { IsPermutation vls.old.items vls.new.items }
    ensures in_order { OnOk result (IsNonDecreasing (ids_of vls.new.items)) }
{
    vls.sort_by_key(|vl| vl.link().id.0)?;
    Ok(())
}

/// Makes a network of these parts, with its tables.
fn network_with(
    alloc: Global,
    until: Time,
    seed: u64,
    nodes: Vec<NodeRow>,
    numbered: Numbered,
) -> Result<Network, AllocError>
    requires { IsAccepted (plan_with until seed nodes.items numbered) }
    ensures { IfOk result (λ network. network ≡ plan_with until seed nodes.items numbered) }
{
    let tables = tables_of(alloc, nodes.as_slice(), &numbered)?;
    Ok(Network::new(until, seed, nodes, numbered, tables))
}
