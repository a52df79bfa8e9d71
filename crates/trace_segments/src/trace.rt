//! The text of a trace.
ghost use Rattle.std.specs.Prelude.{◌≡◌, [], ◌∷◌, decimal, OnOk};
ghost use Rattle.std.specs.List.{flat_map};
ghost use Rattle.trace_segments.specs.Known.{vl_of};
ghost use Rattle.trace_segments.specs.Text.{line, trace_head, note_fields, trace_line, trace_text};
ghost use Rattle.trace_segments.specs.Writing.{Adds};

use crate::known::is_in_network;
use crate::line::push;
use crate::naming::{cause_name, place_name};
use csv::{Error, Writer};
use itoa::Buffer;
use network::Network;
use vlink::{Note, Row, VlId};

/// Appends the first line of a trace.
fn push_head(out: &mut Writer<Vec<u8>>) -> Result<(), Error>
    ensures { OnOk result (Adds out.old out.new trace_head) }
{
    push(
        out,
        &[
            "time_ns".as_bytes(),
            "where".as_bytes(),
            "vl".as_bytes(),
            "what".as_bytes(),
            "value".as_bytes(),
        ],
    )
}

/// Appends a line of the trace.
fn push_fields(
    out: &mut Writer<Vec<u8>>,
    time: u64,
    place: &str,
    vl: VlId,
    what: &str,
    value: u64,
) -> Result<(), Error>
    ensures { OnOk result (Adds out.old out.new (line (decimal time ∷ place.now ∷ decimal vl.0 ∷ what.now ∷ decimal value ∷ []))) }
{
    let mut moment = Buffer::new();
    let mut number = Buffer::new();
    let mut amount = Buffer::new();
    push(
        out,
        &[
            moment.format(time).as_bytes(),
            place.as_bytes(),
            number.format(vl.0).as_bytes(),
            what.as_bytes(),
            amount.format(value).as_bytes(),
        ],
    )
}

/// Appends the line of a note.
fn push_note(out: &mut Writer<Vec<u8>>, time: u64, place: &str, note: &Note) -> Result<(), Error>
    ensures { OnOk result (Adds out.old out.new (line (decimal time ∷ place.now ∷ note_fields note.now))) }
{
    match *note {
        Note::Delivered { vl, latency } => {
            push_fields(out, time, place, vl, "delivered", latency)
        }
        Note::Dropped { vl, cause, size } => {
            let bytes = u64::from(size.bytes());
            push_fields(out, time, place, vl, cause_name(cause), bytes)
        }
    }
}

/// Returns the virtual link of a note.
fn vl_of(note: Note) -> VlId
    ensures { result ≡ vl_of note }
{
    match note {
        Note::Delivered { vl, .. } => vl,
        Note::Dropped { vl, .. } => vl,
    }
}

/// Appends the line of a row, if the network has its virtual link and its process.
fn push_row(out: &mut Writer<Vec<u8>>, network: &Network, row: &Row) -> Result<(), Error>
    ensures { OnOk result (Adds out.old out.new (trace_line network.now row.now)) }
{
    if !is_in_network(network, vl_of(row.note), row.place) {
        return Ok(());
    }
    let place = place_name(network, usize::from(row.place));
    push_note(out, row.message.time.ns(), place, &row.note)
}

/// Appends the lines of these rows, in their order.
pub fn push_rows(out: &mut Writer<Vec<u8>>, network: &Network, rows: &[Row]) -> Result<(), Error>
    ensures { OnOk result (Adds out.old out.new (flat_map (trace_line network.now) rows.now)) }
{
    for row in rows {
        push_row(out, network, row)?;
    }
    Ok(())
}

/// Appends the first line, and the lines of these rows.
pub fn push_trace(out: &mut Writer<Vec<u8>>, network: &Network, rows: &[Row]) -> Result<(), Error>
    ensures { OnOk result (Adds out.old out.new (trace_text network.now rows.now)) }
{
    push_head(out)?;
    push_rows(out, network, rows)
}
