//! Reads the value at a key of a table, without copying.
ghost use Rattle.std.specs.Prelude.{◌≡◌, is_some, length, option_map, option_and_then};
ghost use Rattle.std.specs.List.{list_all};
ghost use Rattle.std.specs.Str.{bytes_eq};
ghost use Rattle.toml.specs.Data.{as_str, get_member};
ghost use Rattle.toml.specs.View.{view, table_view, items_view};
ghost use Rattle.network_rows.specs.Keys.{section_text, word_text};
ghost use Rattle.network_rows.specs.Values.{value_at, passes, as_number, all_as, as_list, as_paths, has_word};

use crate::key::{Key, Section, Word};
use toml::{Table, Value};

/// Returns the value at a key.
pub fn value_at<'a>(row: &'a Table, key: Key) -> Option<&'a Value>
    ensures { option_map (λ v. view v.now) result ≡ value_at key (table_view row.now) }
{
    row.get(key.text())
}

/// Returns the value that a document has for a section that is a list.
pub fn list_at<'a>(document: &'a Table, section: Section) -> Option<&'a Value>
    ensures { option_map (λ v. view v.now) result ≡ get_member (section_text section) (table_view document.now) }
{
    document.get(section.text())
}

/// Returns the number, if the value is an integer that is not negative.
pub fn number_of(value: &Value) -> Option<u64>
    ensures { result ≡ as_number (view value.now) }
{
    match value {
        Value::Integer(n) => u64::try_from(*n).ok(),
        _ => None,
    }
}

/// Returns the number at a key.
pub fn number_in(row: &Table, key: Key) -> Option<u64>
    ensures { result ≡ option_and_then as_number (value_at key (table_view row.now)) }
{
    match value_at(row, key) {
        Some(value) => number_of(value),
        None => None,
    }
}

/// Whether the text at a key is this word.
pub fn has_word(row: &Table, key: Key, word: Word) -> bool
    ensures { result ≡ has_word key word (table_view row.now) }
{
    match value_at(row, key) {
        Some(value) => is_word(value, word),
        None => false,
    }
}

// Whether the value is this word.
fn is_word(value: &Value, word: Word) -> bool
    ensures { result ≡ passes (bytes_eq (word_text word)) (as_str (view value.now)) }
{
    match value.as_str() {
        Some(text) => word.text() == text,
        None => false,
    }
}

/// Returns the number of texts, if the value is a list of texts.
pub fn path_len(value: &Value) -> Option<usize>
    ensures { result ≡ option_map length (as_list as_str (view value.now)) }
{
    match value.as_array() {
        Some(texts) if are_texts(texts.as_slice()) => Some(texts.len()),
        _ => None,
    }
}

/// Whether each of these values is a text.
pub fn are_texts(texts: &[Value]) -> bool
    ensures { result ≡ list_all (λ v. is_some (as_str (view v))) texts.now }
{
    texts.iter().all(|text| text.is_str())
}

/// Whether the value is a list of paths.
pub fn are_paths(value: &Value) -> bool
    ensures { result ≡ is_some (as_paths (view value.now)) }
{
    match value.as_array() {
        Some(paths) => are_each_path(paths.as_slice()),
        None => false,
    }
}

/// Whether each of these values is a path.
pub fn are_each_path(paths: &[Value]) -> bool
    ensures { result ≡ list_all (λ v. is_some (as_list as_str (view v))) paths.now }
{
    paths.iter().all(|path| is_path(path))
}

// Whether the value is a path.
fn is_path(value: &Value) -> bool
    ensures { result ≡ is_some (as_list as_str (view value.now)) }
{
    path_len(value).is_some()
}
