//! Whether a value is of a type, and within its limit.
ghost use Rattle.std.specs.Prelude.{◌≡◌, option_map, length};
ghost use Rattle.std.specs.List.{list_all};
ghost use Rattle.toml.specs.Data.{as_str};
ghost use Rattle.toml.specs.View.{view, table_view};
ghost use Rattle.network_rows.specs.Values.{passes, as_number, as_list, as_paths};
ghost use Rattle.network_rows.specs.ValueTypes.{has_type, is_within, allows, is_name_byte, is_name, allows_text, allows_path, is_above, keeps_limit};

use crate::rule::ValueType;
use crate::value::{are_paths, number_in, number_of, path_len};
use toml::{Table, Value};

impl ValueType {
    /// Whether the value is of this type, whatever its limit.
    pub fn has(self, value: &Value) -> bool
        ensures { result ≡ has_type self (view value.now) }
    {
        match self {
            ValueType::Integer(..)
            | ValueType::IntegerAbove(..)
            | ValueType::OneOf(_)
            | ValueType::OneOfThree(..) => value.is_integer(),
            ValueType::EitherWord(..) | ValueType::NodeName(..) | ValueType::Reference =>
                value.is_str(),
            ValueType::Paths(..) => are_paths(value),
        }
    }

    /// Whether this type allows the number.
    pub fn allows(self, n: u64) -> bool
        ensures { result ≡ allows self n }
    {
        match self {
            ValueType::Integer(least, greatest) | ValueType::IntegerAbove(_, least, greatest) => {
                is_within(least, greatest, n)
            }
            ValueType::OneOf(numbers) => numbers.contains(&n),
            ValueType::OneOfThree(first, second, third) => n == first || n == second || n == third,
            _ => true,
        }
    }

    /// Whether this type allows the text.
    fn allows_text(self, text: &str) -> bool
        ensures { result ≡ allows_text self text.now }
    {
        match self {
            ValueType::EitherWord(first, second) => first.text() == text || second.text() == text,
            ValueType::NodeName(least, greatest) => is_name(least, greatest, text),
            _ => true,
        }
    }

    /// Whether a value of this type, in this row, is within the limit.
    pub fn keeps_limit(self, row: &Table, value: &Value) -> bool
        ensures { result ≡ keeps_limit self (table_view row.now) (view value.now) }
    {
        match self {
            ValueType::Integer(..) | ValueType::OneOf(_) | ValueType::OneOfThree(..) =>
                match number_of(value) {
                    Some(n) => self.allows(n),
                    None => false,
                },
            ValueType::IntegerAbove(key, _, _) => match number_of(value) {
                Some(n) => self.allows(n) && is_above(number_in(row, key), n),
                None => false,
            },
            ValueType::EitherWord(..) | ValueType::NodeName(..) => match value.as_str() {
                Some(text) => self.allows_text(text),
                None => false,
            },
            ValueType::Reference => true,
            ValueType::Paths(least, greatest) => are_paths_within(least, greatest, value),
        }
    }
}

// Whether the number is at least `least` and at most `greatest`.
fn is_within(least: u64, greatest: u64, n: u64) -> bool
    ensures { result ≡ is_within least greatest n }
{
    least <= n && n <= greatest
}

// Whether the number is greater than the other, if the other is present.
fn is_above(other: Option<u64>, n: u64) -> bool
    ensures { result ≡ is_above other n }
{
    match other {
        Some(other) => other < n,
        None => true,
    }
}

// Whether a name may contain the byte.
fn is_name_byte(byte: u8) -> bool
    ensures { result ≡ is_name_byte byte }
{
    byte.is_ascii_alphanumeric() || b"_-".contains(&byte)
}

// Whether a name may contain each of the bytes.
fn are_name_bytes(bytes: &[u8]) -> bool
    ensures { result ≡ list_all is_name_byte bytes.now }
{
    bytes.iter().all(|byte| is_name_byte(*byte))
}

// Whether the text is a name of at least `least` and at most `greatest` bytes.
fn is_name(least: u64, greatest: u64, text: &str) -> bool
    ensures { result ≡ is_name least greatest text.now }
{
    is_within(least, greatest, text.len() as u64) && are_name_bytes(text.as_bytes())
}

// Whether the value is a path with at least `least` and at most `greatest` names.
fn is_path_within(least: u64, greatest: u64, path: &Value) -> bool
    ensures { result ≡ passes (λ names. is_within least greatest (length names)) (as_list as_str (view path.now)) }
{
    match path_len(path) {
        Some(len) => is_within(least, greatest, len as u64),
        None => false,
    }
}

// Whether the value is a list of paths, each with a number of names within these limits.
fn are_paths_within(least: u64, greatest: u64, value: &Value) -> bool
    ensures { result ≡ passes (list_all (λ names. is_within least greatest (length names))) (as_paths (view value.now)) }
{
    match value.as_array() {
        Some(paths) => are_each_within(least, greatest, paths.as_slice()),
        None => false,
    }
}

// Whether each of these values is a path with a number of names within these limits.
fn are_each_within(least: u64, greatest: u64, paths: &[Value]) -> bool
    ensures { result ≡ list_all (λ v. passes (λ names. is_within least greatest (length names)) (as_list as_str (view v))) paths.now }
{
    paths
        .iter()
        .all(|path| is_path_within(least, greatest, path))
}
