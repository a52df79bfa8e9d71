//! Latencies by destination.
ghost use Rattle.std.specs.Prelude.{◌≡◌, ◌+◌, ◌≤◌, [], List, map, length, IfOk, OnOk};
ghost use Rattle.vlink.specs.Letters.{Row};
ghost use Rattle.trace_tables.specs.Cells.{cells_of, AreCellsFrom};
ghost use Rattle.trace_tables.specs.Destinations.{counts_in, destination, with_destinations};
ghost use Rattle.trace_tables.specs.Tables.{latency_table};

use crate::cells::{Cell, Cells};
use crate::destination::{Destination, destination_order_law};
use crate::latencies::Latencies;
use network::Network;
use std::alloc::AllocError;
use std::collections::BTreeMap;
use vlink::VlId;

/// The latencies at these destinations of a virtual link, whose cells begin at a place.
fn add_destinations(
    table: &mut BTreeMap<Destination, Latencies>,
    vl: VlId,
    places: &[usize],
    cells: &[Cell],
    start: usize,
) -> Result<(), AllocError>
    requires { start + length places.now ≤ length cells.now }
    ensures { OnOk result ((rows : List Row) → AreCellsFrom rows start (map (destination vl) places.now) cells.now →
        table.new.entries ≡ with_destinations rows table.old.entries (map (destination vl) places.now)) }
{
    destination_order_law();
    for at in 0..places.len() {
        let place = places[at];
        table.insert(Destination { vl, place }, cells[start + at].latencies)?;
    }
    Ok(())
}

/// The latencies at each destination of the network.
pub fn deliveries_of(
    cells: &Cells,
    network: &Network,
) -> Result<BTreeMap<Destination, Latencies>, AllocError>
    requires { (rows : List Row) × (cells.now ≡ cells_of network.now.vls rows) }
    ensures { IfOk result (λ table. (rows : List Row) → cells.now ≡ cells_of network.now.vls rows → table.entries ≡ latency_table network.now.vls rows) }
{
    let mut table = BTreeMap::new(cells.allocator());
    for vl in 0..network.vl_count() {
        let id = network.virtual_link(vl).id;
        add_destinations(
            &mut table,
            id,
            network.destinations(vl),
            cells.all(),
            cells.start(vl),
        )?;
    }
    Ok(table)
}

/// Returns the counts of a destination; no latency if the table lacks it.
pub fn latencies_at(table: &BTreeMap<Destination, Latencies>, at: Destination) -> Latencies
    ensures { result ≡ counts_in table.now.entries at }
{
    destination_order_law();
    match table.get(&at) {
        Some(here) => *here,
        None => Latencies::none(),
    }
}
