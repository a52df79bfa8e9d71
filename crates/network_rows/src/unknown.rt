//! Keys that a table may not have.
ghost use Rattle.std.specs.Prelude.{◌≡◌, ◌&&◌};
ghost use Rattle.std.specs.List.{list_any};
ghost use Rattle.std.specs.Str.{bytes_eq};
ghost use Rattle.toml.specs.View.{table_view};
ghost use Rattle.network_rows.specs.Keys.{key_text, section_text};
ghost use Rattle.network_rows.specs.Faults.{applies};
ghost use Rattle.network_rows.specs.Rows.{is_known, has_unknown_key};

use crate::key::Section;
use crate::rule::Rule;
use crate::table::{LISTS, keys_of};
use toml::Table;

/// Whether a table of a section has a key that it may not have.
pub fn has_unknown_key(section: Section, row: &Table) -> bool
    ensures { result ≡ has_unknown_key section (table_view row.now) }
{
    row.keys()
        .any(|name| !is_known(section, row, name.as_str()))
}

// Whether a table of a section may have a key.
fn is_known(section: Section, row: &Table, name: &str) -> bool
    ensures { result ≡ is_known section (table_view row.now) name.now }
{
    is_key(keys_of(section), row, name) || section == Section::Top && is_among(&LISTS, name)
}

// Whether the name is the key of one of these lines, and the row may have this key.
fn is_key(rules: &[Rule], row: &Table, name: &str) -> bool
    ensures { result ≡ list_any (λ rule. applies rule.presence (table_view row.now) && bytes_eq name.now (key_text rule.key)) rules.now }
{
    rules
        .iter()
        .any(|rule| rule.applies(row) && name == rule.key.text())
}

// Whether the name is that of one of these sections.
fn is_among(sections: &[Section], name: &str) -> bool
    ensures { result ≡ list_any (λ section. bytes_eq name.now (section_text section)) sections.now }
{
    sections.iter().any(|section| name == section.text())
}
