//! Makes the rows of each section from tables without a fault. Numbers and words are read; names and paths are moved out of the table.
ghost use Rattle.std.specs.Prelude.{IfOk};
ghost use Rattle.toml.specs.View.{table_view};
ghost use Rattle.network_rows.specs.declared.key.Section.TheVariants as section;
ghost use Rattle.network_rows.specs.declared.key.Section.TheVariants.{Node, Link, Outage, Vl};
ghost use Rattle.network_rows.specs.Table.{mbit, policing, priority, timing};
ghost use Rattle.network_rows.specs.Sound.{IsSoundAt, IsSoundStream, IsSoundTable};
ghost use Rattle.network_rows.specs.Rows.{IsNumberAt, IsWordAt, IsWordOrDefaultAt, mbit_of, word_of_policing, word_of_priority, word_of_timing, MeansKind, MeansNode, MeansLink, MeansOutage, MeansStream, MeansStreamRow, MeansVirtualLink, MeansVl};

use crate::key::{Key, Section, Word};
use crate::read_value::{name_of, number_at, number_if, paths_of, size_if};
use crate::rows::{LinkRow, OutageRow, VlRow};
use crate::table;
use crate::take::take_value;
use crate::unknown::has_unknown_key;
use crate::value::has_word;
use row_types::{
    NodeKind, NodeRow, Policing, Priority, Rate, Stream, StreamRow, Timing, VirtualLink,
};
use std::alloc::{AllocError, Global};
use toml::Table;
use vlink::{FrameSize, Net, VlId};

/// Makes the node of a row.
pub fn node_of(row: Table) -> NodeRow
    requires { IsSoundTable Node (table_view row) }
    ensures { MeansNode (table_view row) result }
{
    let mut row = row;
    NodeRow {
        kind: node_kind(&row),
        port_bytes: number_at(table::PORT_BYTES, &row) as u32,
        has_unknown_key: has_unknown_key(Section::Node, &row),
        name: name_of(take_value(&mut row, Key::Name)),
    }
}

/// Makes the link of a row.
pub fn link_of(row: Table) -> LinkRow
    requires { IsSoundTable Link (table_view row) }
    ensures { MeansLink (table_view row) result }
{
    let mut row = row;
    LinkRow {
        mbit: rate(&row),
        propagation_ns: number_at(table::PROPAGATION_NS, &row) as u32,
        has_unknown_key: has_unknown_key(Section::Link, &row),
        a: name_of(take_value(&mut row, Key::A)),
        b: name_of(take_value(&mut row, Key::B)),
    }
}

/// Makes the outage of a row.
pub fn outage_of(row: Table) -> OutageRow
    requires { IsSoundTable Outage (table_view row) }
    ensures { MeansOutage (table_view row) result }
{
    let mut row = row;
    OutageRow {
        from_ns: number_at(table::FROM_NS, &row),
        to_ns: number_at(table::TO_NS, &row),
        has_unknown_key: has_unknown_key(Section::Outage, &row),
        from: name_of(take_value(&mut row, Key::From)),
        to: name_of(take_value(&mut row, Key::To)),
    }
}

/// Makes the virtual link of a row.
pub fn vl_of(alloc: Global, row: Table) -> Result<VlRow, AllocError>
    requires { IsSoundTable Vl (table_view row) }
    ensures { IfOk result (MeansVl (table_view row)) }
{
    let mut row = row;
    let link = virtual_link(&row);
    let has_unknown_key = has_unknown_key(Section::Vl, &row);
    let a = paths_of(alloc, take_value(&mut row, Key::A))?;
    let b = paths_of(alloc, take_value(&mut row, Key::B))?;
    Ok(VlRow {
        link,
        a,
        b,
        has_unknown_key,
    })
}

// Reads what a row states about the frames of its virtual link.
fn virtual_link(row: &Table) -> VirtualLink
    requires { IsSoundTable Vl (table_view row.now) }
    ensures { MeansVirtualLink (table_view row.now) result }
{
    VirtualLink {
        id: VlId(number_at(table::ID, row) as u16),
        bag_ms: number_at(table::BAG_MS, row) as u8,
        smax: FrameSize::new(number_at(table::SMAX, row) as u16).unwrap(),
        priority: priority(row),
        policing_jitter_ns: number_at(table::POLICING_JITTER_NS, row) as u32,
        policing: policing(row),
        skew_max_ns: number_at(table::SKEW_MAX_NS, row) as u32,
        depth: number_at(table::DEPTH, row) as u16,
        sub: number_at(table::SUB, row) as u8,
        own: stream(row),
    }
}

/// Makes the stream of a row.
pub fn stream_of(row: Table) -> StreamRow
    requires { IsSoundTable section.Stream (table_view row) }
    ensures { MeansStreamRow (table_view row) result }
{
    StreamRow {
        vl: VlId(number_at(table::STREAM_VL, &row) as u16),
        stream: stream(&row),
        has_unknown_key: has_unknown_key(Section::Stream, &row),
    }
}

// Reads what a row states of its stream.
fn stream(row: &Table) -> Stream
    requires { IsSoundStream (table_view row.now) }
    ensures { MeansStream (table_view row.now) result }
{
    Stream {
        size: FrameSize::new(number_at(table::SIZE, row) as u16).unwrap(),
        frames: number_at(table::FRAMES, row) as u8,
        last_size: size_if(table::LAST_SIZE, row),
        offset_ns: number_at(table::OFFSET_NS, row),
        period_ns: number_at(table::PERIOD_NS, row),
        jitter_ns: number_at(table::JITTER_NS, row) as u32,
        timing: timing(row),
        end_ns: number_if(table::END_NS, row),
        sub_vl: match number_if(table::SUB_VL, row) {
            Some(n) => Some(n as u8),
            None => None,
        },
    }
}

// Reads when the bursts of the stream of a row come.
fn timing(row: &Table) -> Timing
    requires { IsSoundAt timing (table_view row.now) }
    ensures { IsWordOrDefaultAt timing (table_view row.now) (word_of_timing result) }
{
    if has_word(row, Key::Timing, Word::Sporadic) {
        Timing::Sporadic
    } else {
        Timing::Periodic
    }
}

// Reads the kind of the node of a row.
fn node_kind(row: &Table) -> NodeKind
    requires { IsSoundTable Node (table_view row.now) }
    ensures { MeansKind (table_view row.now) result }
{
    if has_word(row, Key::Kind, Word::Switch) {
        NodeKind::Switch {
            net: if has_word(row, Key::Net, Word::B) {
                Net::B
            } else {
                Net::A
            },
            latency_ns: number_at(table::LATENCY_NS, row) as u32,
        }
    } else {
        NodeKind::EndSystem
    }
}

// Reads the rate of the link of a row.
fn rate(row: &Table) -> Rate
    requires { IsSoundAt mbit (table_view row.now) }
    ensures { IsNumberAt mbit (table_view row.now) (mbit_of result) }
{
    match number_at(table::MBIT, row) {
        10 => Rate::Mbit10,
        100 => Rate::Mbit100,
        _ => Rate::Mbit1000,
    }
}

// Reads the priority of the virtual link of a row.
fn priority(row: &Table) -> Priority
    requires { IsSoundAt priority (table_view row.now) }
    ensures { IsWordAt priority (table_view row.now) (word_of_priority result) }
{
    if has_word(row, Key::Priority, Word::High) {
        Priority::High
    } else {
        Priority::Low
    }
}

// Reads what switches count when they police the virtual link of a row.
fn policing(row: &Table) -> Policing
    requires { IsSoundAt policing (table_view row.now) }
    ensures { IsWordOrDefaultAt policing (table_view row.now) (word_of_policing result) }
{
    if has_word(row, Key::Policing, Word::Frames) {
        Policing::Frames
    } else {
        Policing::Bytes
    }
}
