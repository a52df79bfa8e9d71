//! From the text of a description to its rows.
ghost use Rattle.std.specs.Prelude.{◌≡◌, [], Some, OnOk, IfOk, IfErr};
ghost use Rattle.toml.specs.Parse.{parse_document};
ghost use Rattle.toml.specs.View.{table_view};
ghost use Rattle.network_rows.specs.declared.rows.Rows.{Rows};
ghost use Rattle.network_rows.specs.Faults.{faults_of_text, faults_of_document, IsFirstFault};
ghost use Rattle.network_rows.specs.Rows.{Means, MeansRows};
ghost use Rattle.network_rows.specs.Within.{AreWithin};

use crate::fault::DescFault;
use crate::find_faults::first_fault;
use crate::read_row::rows;
use crate::rows::Rows;
use std::alloc::Global;
use toml::Table;

/// Reads the rows of a description.
///
/// An error is the first fault of the text among the faults of single keys, or it means that memory was refused.
pub fn read_rows(alloc: Global, text: &str) -> Result<Rows, DescFault>
    // The text means a document without such a fault, and these are its rows.
    ensures rows { IfOk result (Means text.now) }
    // It means no other rows.
    ensures only { IfOk result (λ rows. (other : Rows) → Means text.now other → other ≡ rows) }
    ensures within { IfOk result AreWithin }
    ensures fault { IfErr result (IsFirstFault (faults_of_text text.now)) }
{
    match document_of(alloc, text) {
        Ok(document) => rows_of(alloc, document),
        Err(fault) => Err(fault),
    }
}

// Reads the document that the text represents.
fn document_of(alloc: Global, text: &str) -> Result<Table, DescFault>
    ensures document { IfOk result (λ document. parse_document text.now ≡ Some (table_view document)) }
    ensures fault { IfErr result (IsFirstFault (faults_of_text text.now)) }
{
    match toml::table_from_str(alloc, text) {
        Ok(document) => Ok(document),
        Err(error) if error.is_memory() => Err(DescFault::OutOfMemory),
        Err(_) => Err(DescFault::Syntax),
    }
}

// Reads the rows of a document, or finds its first fault.
fn rows_of(alloc: Global, document: Table) -> Result<Rows, DescFault>
    ensures sound { OnOk result (faults_of_document (table_view document) ≡ []) }
    ensures rows { IfOk result (MeansRows (table_view document)) }
    ensures fault { IfErr result (IsFirstFault (faults_of_document (table_view document))) }
{
    let mut document = document;
    match first_fault(&document) {
        Some(fault) => Err(fault),
        None => Ok(rows(alloc, &mut document)?),
    }
}
