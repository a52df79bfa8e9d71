//! Reads a document once, and stores the first place of each kind of fault.
ghost use Rattle.std.specs.Prelude.{◌≡◌, Some, map, option_map};
ghost use Rattle.std.specs.List.{flat_map};
ghost use Rattle.toml.specs.Data.{as_table};
ghost use Rattle.toml.specs.View.{view, table_view};
ghost use Rattle.network_rows.specs.Faults.{faults_at, faults_in_table, fault_of_whole, faults_in_row, faults_in_rows, faults_in_list, faults_in_section, faults_in_document, faults_of_document, first};
ghost use Rattle.network_rows.specs.Firsts.{all_stored};

use crate::fault::{DescFault, KeyFault, Place};
use crate::first_places::FirstPlaces;
use crate::key::Section;
use crate::rule::Rule;
use crate::table::{LISTS, keys_of};
use crate::value::list_at;
use toml::{Table, Value};

/// The first of the faults 2 to 4 of a document.
pub fn first_fault(document: &Table) -> Option<DescFault>
    ensures { result ≡ first (faults_of_document (table_view document.now)) }
{
    let mut firsts = FirstPlaces::none();
    note_document(&mut firsts, document);
    firsts.told_fault()
}

// Notes the faults of a document.
fn note_document(firsts: &mut FirstPlaces, document: &Table)
    ensures { firsts.new ≡ all_stored firsts.old (faults_in_document (table_view document.now)) }
{
    note_table(firsts, Section::Top, None, document);
    note_lists(firsts, document, &LISTS);
}

// Notes the faults of these sections of a document.
#[tactic(auto, using(std::proofs::lemmas::Grind::common_steps, crate::proofs::Stored::all_stored_append))]
fn note_lists(firsts: &mut FirstPlaces, document: &Table, sections: &[Section])
    ensures { firsts.new ≡ all_stored firsts.old (flat_map (faults_in_section (table_view document.now)) sections.now) }
{
    for section in sections {
        note_list(firsts, *section, list_at(document, *section));
    }
}

// Notes the faults of the value that a document has for a section.
fn note_list(firsts: &mut FirstPlaces, section: Section, value: Option<&Value>)
    ensures { firsts.new ≡ all_stored firsts.old (faults_in_list section (option_map (λ v. view v.now) value.entry)) }
{
    match value {
        Some(value) => note_list_value(firsts, section, value),
        None => {}
    }
}

// Notes the faults of the value of a section.
fn note_list_value(firsts: &mut FirstPlaces, section: Section, value: &Value)
    ensures { firsts.new ≡ all_stored firsts.old (faults_in_list section (Some (view value.now))) }
{
    match value.as_array() {
        Some(rows) => note_rows(firsts, section, rows.as_slice()),
        None => note_whole(firsts, section, 0),
    }
}

// Notes the faults of the rows of a section.
#[tactic(auto, using(std::proofs::lemmas::Grind::common_steps, crate::proofs::Stored::all_stored_append))]
fn note_rows(firsts: &mut FirstPlaces, section: Section, rows: &[Value])
    ensures { firsts.new ≡ all_stored firsts.old (faults_in_rows section 1 (map view rows.now)) }
{
    for (i, value) in rows.iter().enumerate() {
        note_row(firsts, section, i as u64 + 1, value);
    }
}

// Notes the faults of a row.
fn note_row(firsts: &mut FirstPlaces, section: Section, number: u64, value: &Value)
    ensures { firsts.new ≡ all_stored firsts.old (faults_in_row section number (as_table (view value.now))) }
{
    match value.as_table() {
        Some(row) => note_table(firsts, section, Some(number), row),
        None => note_whole(firsts, section, number),
    }
}

// Notes that a whole row has the wrong type; with the number 0, that a whole section has.
fn note_whole(firsts: &mut FirstPlaces, section: Section, number: u64)
    ensures { firsts.new ≡ all_stored firsts.old (fault_of_whole section number) }
{
    let place = Place {
        section,
        row: Some(number),
        key: None,
    };
    firsts.note(KeyFault::WrongKind, place);
}

// Notes the faults of the keys of a table.
fn note_table(firsts: &mut FirstPlaces, section: Section, number: Option<u64>, row: &Table)
    ensures { firsts.new ≡ all_stored firsts.old (faults_in_table section number (table_view row.now)) }
{
    note_keys(firsts, section, number, row, keys_of(section));
}

// Notes the faults of these keys of a table.
#[tactic(auto, using(std::proofs::lemmas::Grind::common_steps, crate::proofs::Stored::all_stored_append))]
fn note_keys(
    firsts: &mut FirstPlaces,
    section: Section,
    number: Option<u64>,
    row: &Table,
    rules: &[Rule],
)
    ensures { firsts.new ≡ all_stored firsts.old (flat_map (faults_at section number (table_view row.now)) rules.now) }
{
    for rule in rules {
        note_key(firsts, section, number, row, rule);
    }
}

// Notes the fault of a key of a table, if it has one.
fn note_key(
    firsts: &mut FirstPlaces,
    section: Section,
    number: Option<u64>,
    row: &Table,
    rule: &Rule,
)
    ensures { firsts.new ≡ all_stored firsts.old (faults_at section number (table_view row.now) rule.now) }
{
    match rule.fault_in(row) {
        Some(fault) => {
            let place = Place {
                section,
                row: number,
                key: Some(rule.key),
            };
            firsts.note(fault, place);
        }
        None => {}
    }
}
