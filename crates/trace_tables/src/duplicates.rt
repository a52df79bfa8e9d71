//! Duplicates that were dropped at destinations are losses like others.
ghost use Rattle.std.specs.Prelude.{◌≡◌, ◌+◌, ◌≤◌, List, map, length, OnOk};
ghost use Rattle.vlink.specs.Letters.{Row};
ghost use Rattle.trace_tables.specs.Cells.{cells_of, duplicate_at, with_duplicates, with_known, AreCellsFrom};
ghost use Rattle.trace_tables.specs.Destinations.{destination, destinations_in};

use crate::cells::{Cell, Cells};
use crate::drops::put_known_loss;
use crate::loss::Loss;
use network::Network;
use std::alloc::AllocError;
use std::collections::BTreeMap;
use vlink::{Cause, VlId};

/// The duplicates at a destination are put among the losses.
fn put_duplicates(
    drops: &mut BTreeMap<Loss, u64>,
    network: &Network,
    vl: VlId,
    process: usize,
    count: u64,
) -> Result<(), AllocError>
    ensures { OnOk result (drops.new.entries ≡ with_known network.now drops.old.entries (duplicate_at (destination vl process)) count) }
{
    let _few = network.process_count();
    match u16::try_from(process) {
        Ok(place) => {
            let cause = Cause::Duplicate;
            put_known_loss(drops, network, Loss { vl, place, cause }, count)
        }
        Err(_) => Ok(()),
    }
}

/// The duplicates at these destinations of a virtual link, whose cells begin at a place.
fn add_destinations(
    drops: &mut BTreeMap<Loss, u64>,
    network: &Network,
    vl: VlId,
    places: &[usize],
    cells: &[Cell],
    start: usize,
) -> Result<(), AllocError>
    requires { start + length places.now ≤ length cells.now }
    ensures { OnOk result ((rows : List Row) → AreCellsFrom rows start (map (destination vl) places.now) cells.now →
        drops.new.entries ≡ with_duplicates network.now rows drops.old.entries (map (destination vl) places.now)) }
{
    for at in 0..places.len() {
        put_duplicates(drops, network, vl, places[at], cells[start + at].duplicates)?;
    }
    Ok(())
}

/// The duplicates at each destination of the network.
pub fn add_duplicates(
    drops: &mut BTreeMap<Loss, u64>,
    network: &Network,
    cells: &Cells,
) -> Result<(), AllocError>
    requires { (rows : List Row) × (cells.now ≡ cells_of network.now.vls rows) }
    ensures { OnOk result ((rows : List Row) → cells.now ≡ cells_of network.now.vls rows →
        drops.new.entries ≡ with_duplicates network.now rows drops.old.entries (destinations_in network.now.vls)) }
{
    for vl in 0..network.vl_count() {
        let id = network.virtual_link(vl).id;
        add_destinations(
            drops,
            network,
            id,
            network.destinations(vl),
            cells.all(),
            cells.start(vl),
        )?;
    }
    Ok(())
}
