//! Takes a document apart into its rows.
ghost use Rattle.std.specs.Prelude.{◌≡◌, [], Some, All, option_map, IfOk};
ghost use Rattle.std.specs.List.{AllZip};
ghost use Rattle.toml.specs.Data.{Members};
ghost use Rattle.toml.specs.View.{view, table_view};
ghost use Rattle.network_rows.specs.declared.key.Section.{Section};
ghost use Rattle.network_rows.specs.declared.key.Section.TheVariants.{Node, Link, Outage, Vl, Stream};
ghost use Rattle.network_rows.specs.Faults.{faults_of_document};
ghost use Rattle.network_rows.specs.Sound.{IsSoundTable, IsSoundRow, IsSoundList};
ghost use Rattle.network_rows.specs.Rows.{MeansNode, MeansLink, MeansOutage, MeansVl, MeansStreamRow, MeansRow, MeansList, MeansRows};

use crate::key::Section;
use crate::make_row::{link_of, node_of, outage_of, stream_of, vl_of};
use crate::read_value::number_at;
use crate::rows::{LinkRow, OutageRow, Rows, VlRow};
use crate::sequence::Sequence;
use crate::table;
use crate::take::take_list;
use crate::unknown::has_unknown_key;
use row_types::{NodeRow, StreamRow};
use std::alloc::{AllocError, Global};
use toml::{Table, Value};
use vlink::Time;

/// Makes the rows of a document that has no fault of a key. Their sections are taken out of the document.
pub fn rows(alloc: Global, document: &mut Table) -> Result<Rows, AllocError>
    requires { faults_of_document (table_view document.old) ≡ [] }
    ensures { IfOk result (MeansRows (table_view document.old)) }
{
    let until = Time::new(number_at(table::UNTIL_NS, document)).unwrap();
    let seed = number_at(table::SEED, document);
    let has_unknown_key = has_unknown_key(Section::Top, document);
    let nodes = rows_in::<Nodes>(alloc, take_list(document, Section::Node))?;
    let links = rows_in::<Links>(alloc, take_list(document, Section::Link))?;
    let outages = rows_in::<Outages>(alloc, take_list(document, Section::Outage))?;
    let vls = rows_in::<Vls>(alloc, take_list(document, Section::Vl))?;
    let streams = rows_in::<Streams>(alloc, take_list(document, Section::Stream))?;
    Ok(Rows {
        until,
        seed,
        nodes,
        links,
        outages,
        vls,
        streams,
        has_unknown_key,
    })
}

// Makes the rows of a section, which has this value or none.
fn rows_in<R: ReadRow>(alloc: Global, value: Option<Value>) -> Result<Sequence<R::Row>, AllocError>
    requires { IsSoundList R.section (option_map view value) }
    ensures { IfOk result (MeansList R.means (option_map view value)) }
{
    match value {
        Some(value) => rows_of_list::<R>(alloc, value),
        None => Ok(Sequence::from_vec(Vec::new(alloc))),
    }
}

// Makes the rows of a list.
fn rows_of_list<R: ReadRow>(alloc: Global, value: Value) -> Result<Sequence<R::Row>, AllocError>
    requires { IsSoundList R.section (Some (view value)) }
    ensures { IfOk result (MeansList R.means (Some (view value))) }
{
    match value {
        Value::Array(rows) => rows_of_values::<R>(alloc, rows),
        _ => unreachable!(),
    }
}

// Makes the rows of these values.
#[tactic(auto, using(std::proofs::lemmas::Grind::common_steps, std::proofs::lemmas::Slice::Zip::all_zipped_more))]
fn rows_of_values<R: ReadRow>(
    alloc: Global,
    values: Vec<Value>,
) -> Result<Sequence<R::Row>, AllocError>
    requires { All (λ v. IsSoundRow R.section (view v)) values.items }
    ensures { IfOk result (AllZip (λ v row. MeansRow R.means (view v) row) values.items) }
{
    let mut rows = Vec::with_capacity(alloc, values.len())?;
    for value in values {
        let row = row_of_value::<R>(alloc, value)?;
        rows.push(row)?;
    }
    Ok(Sequence::from_vec(rows))
}

// Makes the row of a value.
fn row_of_value<R: ReadRow>(alloc: Global, value: Value) -> Result<R::Row, AllocError>
    requires { IsSoundRow R.section (view value) }
    ensures { IfOk result (MeansRow R.means (view value)) }
{
    match value {
        Value::Table(row) => R::read(alloc, row),
        _ => unreachable!(),
    }
}

/// A section, each of whose rows a table represents.
///
/// Rows themselves have no such trait, so whoever uses one needs no reader of TOML.
trait ReadRow {
    type Row: Drop;

    ghost section: { Section };

    /// The table represents the row.
    ghost means: { Members → Self.Row → Type 0 };

    /// Makes the row of a table without a fault.
    fn read(alloc: Global, row: Table) -> Result<Self::Row, AllocError>
        requires { IsSoundTable section (table_view row) }
        ensures { IfOk result (means (table_view row)) };
}

struct Nodes;

impl ReadRow for Nodes {
    type Row = NodeRow;

    ghost section = { Node };

    ghost means = { MeansNode };

    fn read(_alloc: Global, row: Table) -> Result<Self::Row, AllocError> {
        Ok(node_of(row))
    }
}

struct Links;

impl ReadRow for Links {
    type Row = LinkRow;

    ghost section = { Link };

    ghost means = { MeansLink };

    fn read(_alloc: Global, row: Table) -> Result<Self::Row, AllocError> {
        Ok(link_of(row))
    }
}

struct Outages;

impl ReadRow for Outages {
    type Row = OutageRow;

    ghost section = { Outage };

    ghost means = { MeansOutage };

    fn read(_alloc: Global, row: Table) -> Result<Self::Row, AllocError> {
        Ok(outage_of(row))
    }
}

struct Vls;

impl ReadRow for Vls {
    type Row = VlRow;

    ghost section = { Vl };

    ghost means = { MeansVl };

    fn read(alloc: Global, row: Table) -> Result<Self::Row, AllocError> {
        vl_of(alloc, row)
    }
}

struct Streams;

impl ReadRow for Streams {
    type Row = StreamRow;

    ghost section = { Stream };

    ghost means = { MeansStreamRow };

    fn read(_alloc: Global, row: Table) -> Result<Self::Row, AllocError> {
        Ok(stream_of(row))
    }
}
