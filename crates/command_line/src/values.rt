//! Reads the values that clap has for an argument.
ghost use Rattle.std.specs.Prelude.{◌≡◌, ◌≤◌, None, Some, true, IfOk, IfSome, is_some, option_map};
ghost use Rattle.std.specs.String.{string_bytes};
ghost use Rattle.clap.specs.Words.{found_of, first_of, one_of, rows_of};
ghost use Rattle.command_line.specs.Given.{IsUpTo};
ghost use Rattle.command_line.specs.Meaning.{IsNamed, IsNumberOf, number_in};

use clap::ArgMatches;
use std::alloc::{AllocError, Global};

/// Returns the text of an argument, if it has one.
pub(crate) fn text_of(
    alloc: Global,
    values: &ArgMatches<'_>,
    id: &str,
) -> Result<Option<String>, AllocError>
    ensures { IfOk result (λ text. first_of id.now (rows_of (found_of values.now)) ≡ option_map string_bytes text) }
{
    match values.get_str(id) {
        Some(text) => Ok(Some(String::from_str(alloc, text)?)),
        None => Ok(None),
    }
}

/// Returns the text of an argument that has one.
pub(crate) fn given_text_of(
    alloc: Global,
    values: &ArgMatches<'_>,
    id: &str,
) -> Result<String, AllocError>
    requires { is_some (first_of id.now (rows_of (found_of values.now))) ≡ true }
    ensures { IfOk result (λ text. first_of id.now (rows_of (found_of values.now)) ≡ Some (string_bytes text)) }
{
    let text = values.get_str(id).unwrap();
    String::from_str(alloc, text)
}

/// Whether a flag is given.
pub(crate) fn is_named(values: &ArgMatches<'_>, id: &str) -> bool
    ensures { IsNamed (rows_of (found_of values.now)) id.now result }
{
    match values.get_str(id) {
        Some(text) => text == "true",
        None => false,
    }
}

/// Returns the number of an argument, if it has one. The number is at most the greatest.
pub(crate) fn named_number(values: &ArgMatches<'_>, id: &str, most: u64) -> Option<u64>
    requires { IsUpTo most (one_of id.now (rows_of (found_of values.now))) }
    ensures value { result ≡ option_map number_in (one_of id.now (rows_of (found_of values.now))) }
    ensures limits { IfSome result (λ n. (1 ≤ n) × (n ≤ most)) }
{
    values.try_get_one::<u64>(id).unwrap()
}

/// Returns the number of an argument, which is at most the greatest, or the default if it has none.
pub(crate) fn number_of(values: &ArgMatches<'_>, id: &str, usual: u64, most: u64) -> u64
    requires given { IsUpTo most (one_of id.now (rows_of (found_of values.now))) }
    requires usual { (1 ≤ usual) × (usual ≤ most) }
    ensures value { IsNumberOf (one_of id.now (rows_of (found_of values.now))) result }
    ensures usual { one_of id.now (rows_of (found_of values.now)) ≡ None → result ≡ usual }
    ensures limits { (1 ≤ result) × (result ≤ most) }
{
    named_number(values, id, most).unwrap_or(usual)
}
