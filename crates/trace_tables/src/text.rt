//! Writes the lines of the tables, cell by cell. A new column begins here.
ghost use Rattle.std.specs.Prelude.{map, OnOk};
ghost use Rattle.std.specs.List.{flat_map};
ghost use Rattle.trace_tables.specs.Destinations.{destination};
ghost use Rattle.trace_tables.specs.Text.{tables_head, latency_line, destination_line, latency_text, loss_line, drop_line, drop_text};
ghost use Rattle.trace_segments.specs.Words.{Adds};

use crate::deliveries::latencies_at;
use crate::destination::Destination;
use crate::latencies::Latencies;
use crate::loss::Loss;
use csv::{Error, Writer};
use itoa::Buffer;
use network::Network;
use std::collections::BTreeMap;
use trace_segments::line::push;
use trace_segments::{cause_name, is_in_network, place_name};
use vlink::VlId;

/// Appends the first line of the tables.
pub fn push_head(out: &mut Writer<Vec<u8>>) -> Result<(), Error>
    ensures { OnOk result (Adds out.old out.new tables_head) }
{
    push(
        out,
        &[
            "table".as_bytes(),
            "vl".as_bytes(),
            "where".as_bytes(),
            "cause".as_bytes(),
            "count".as_bytes(),
            "least_ns".as_bytes(),
            "greatest_ns".as_bytes(),
            "sum_ns".as_bytes(),
        ],
    )
}

/// Appends the latencies of a virtual link at a destination.
fn push_latency(
    out: &mut Writer<Vec<u8>>,
    network: &Network,
    vl: VlId,
    place: usize,
    counts: &Latencies,
) -> Result<(), Error>
    ensures { OnOk result (Adds out.old out.new (latency_line network.now vl.0 place counts.now)) }
{
    let mut number = Buffer::new();
    let mut count = Buffer::new();
    let mut least = Buffer::new();
    let mut greatest = Buffer::new();
    let mut sum = Buffer::new();
    push(
        out,
        &[
            "latency".as_bytes(),
            number.format(vl.0).as_bytes(),
            place_name(network, place).as_bytes(),
            "".as_bytes(),
            count.format(counts.count()).as_bytes(),
            least.format(counts.least()).as_bytes(),
            greatest.format(counts.greatest()).as_bytes(),
            sum.format(counts.sum()).as_bytes(),
        ],
    )
}

/// Appends the latencies of a virtual link at these destinations.
fn push_destinations(
    out: &mut Writer<Vec<u8>>,
    network: &Network,
    vl: VlId,
    places: &[usize],
    table: &BTreeMap<Destination, Latencies>,
) -> Result<(), Error>
    ensures { OnOk result (Adds out.old out.new (flat_map (destination_line network.now table.now.entries) (map (destination vl) places.now))) }
{
    for place in places {
        let here = latencies_at(table, Destination { vl, place: *place });
        push_latency(out, network, vl, *place, &here)?;
    }
    Ok(())
}

/// Appends the latencies at each destination of each virtual link of the network.
pub fn push_latencies(
    out: &mut Writer<Vec<u8>>,
    network: &Network,
    table: &BTreeMap<Destination, Latencies>,
) -> Result<(), Error>
    ensures { OnOk result (Adds out.old out.new (latency_text network.now table.now.entries)) }
{
    for vl in 0..network.vl_count() {
        let id = network.virtual_link(vl).id;
        push_destinations(out, network, id, network.destinations(vl), table)?;
    }
    Ok(())
}

/// Appends how many frames were dropped, for one loss.
fn push_loss(
    out: &mut Writer<Vec<u8>>,
    network: &Network,
    loss: &Loss,
    count: u64,
) -> Result<(), Error>
    ensures { OnOk result (Adds out.old out.new (loss_line network.now loss.now count)) }
{
    let mut number = Buffer::new();
    let mut many = Buffer::new();
    push(
        out,
        &[
            "dropped".as_bytes(),
            number.format(loss.vl.0).as_bytes(),
            place_name(network, usize::from(loss.place)).as_bytes(),
            cause_name(loss.cause).as_bytes(),
            many.format(count).as_bytes(),
            "".as_bytes(),
            "".as_bytes(),
            "".as_bytes(),
        ],
    )
}

/// Appends a loss that is counted above 0, if the network has its virtual link and process.
fn push_drop(
    out: &mut Writer<Vec<u8>>,
    network: &Network,
    loss: &Loss,
    count: u64,
) -> Result<(), Error>
    ensures { OnOk result (Adds out.old out.new (drop_line network.now (loss.now, count))) }
{
    if !is_in_network(network, loss.vl, loss.place) || count == 0 {
        return Ok(());
    }
    push_loss(out, network, loss, count)
}

/// Appends how many frames were dropped, for each loss.
pub fn push_drops(
    out: &mut Writer<Vec<u8>>,
    network: &Network,
    drops: &BTreeMap<Loss, u64>,
) -> Result<(), Error>
    ensures { OnOk result (Adds out.old out.new (drop_text network.now drops.now.entries)) }
{
    for (loss, count) in drops.iter() {
        push_drop(out, network, loss, *count)?;
    }
    Ok(())
}
