//! Moves values out of a table, one after another.
ghost use Rattle.std.specs.Prelude.{◌≡◌, ℕ, List, false, option_map};
ghost use Rattle.toml.specs.Data.{get_member, same_key};
ghost use Rattle.toml.specs.View.{view, table_view};
ghost use Rattle.network_rows.specs.declared.key.Key.{Key};
ghost use Rattle.network_rows.specs.declared.key.Section.{Section};
ghost use Rattle.network_rows.specs.Keys.{key_text, section_text};
ghost use Rattle.network_rows.specs.Values.{value_at};

use crate::key::{Key, Section};
use toml::{Table, Value};

/// Takes the value at a key out of a row.
pub fn take_value(row: &mut Table, key: Key) -> Option<Value>
    ensures value { option_map view result ≡ value_at key (table_view row.old) }
    ensures others { (other : Key) → same_key (key_text key) (key_text other) ≡ false → value_at other (table_view row.new) ≡ value_at other (table_view row.old) }
{
    take(row, key.text())
}

/// Takes the value of a section out of a document.
pub fn take_list(document: &mut Table, section: Section) -> Option<Value>
    ensures value { option_map view result ≡ get_member (section_text section) (table_view document.old) }
    ensures others { (other : Section) → same_key (section_text section) (section_text other) ≡ false → get_member (section_text other) (table_view document.new) ≡ get_member (section_text other) (table_view document.old) }
{
    take(document, section.text())
}

// Takes the value with this name out of a table.
fn take(table: &mut Table, name: &str) -> Option<Value>
    ensures value { option_map view result ≡ get_member name.now (table_view table.old) }
    ensures others { (other : List ℕ) → same_key name.now other ≡ false → get_member other (table_view table.new) ≡ get_member other (table_view table.old) }
{
    table.remove(name)
}
