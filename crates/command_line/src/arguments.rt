//! The arguments of the commands.
ghost use Rattle.std.specs.Prelude.{◌≡◌, Some, false};
ghost use Rattle.clap.specs.Words.{new_rule, rule_of};
ghost use Rattle.command_line.specs.Program.{file_rule, flag_rule, path_rule};

use clap::builder::ValueParser;
use clap::{Arg, ArgAction};
use std::alloc::Global;

/// A path that must be given, identified by its position.
pub(crate) fn path<'a>(alloc: Global, id: &'a str, help: &'a str) -> Arg<'a>
    ensures rule { rule_of result ≡ path_rule id.entry.now }
    ensures local { result.global ≡ false }
{
    Arg::new(alloc, id).required(true).help(help)
}

/// A file that may be given: `--id FILE`.
pub(crate) fn file<'a>(alloc: Global, id: &'a str, help: &'a str) -> Arg<'a>
    ensures rule { rule_of result ≡ file_rule id.entry.now }
    ensures local { result.global ≡ false }
{
    valued(alloc, id, "FILE", help)
}

/// An option with a value: `--id UNIT`.
fn valued<'a>(alloc: Global, id: &'a str, unit: &'a str, help: &'a str) -> Arg<'a>
    ensures rule { rule_of result ≡ file_rule id.entry.now }
    ensures local { result.global ≡ false }
{
    Arg::new(alloc, id).long(id).value_name(unit).help(help)
}

/// A flag that may be given: `--id`.
pub(crate) fn flag<'a>(alloc: Global, id: &'a str, help: &'a str) -> Arg<'a>
    ensures rule { rule_of result ≡ flag_rule id.entry.now }
    ensures local { result.global ≡ false }
{
    Arg::new(alloc, id)
        .long(id)
        .action(ArgAction::SetTrue)
        .help(help)
}

/// A number that may be given: `--id UNIT`.
pub(crate) fn number<'a>(
    alloc: Global,
    id: &'a str,
    unit: &'a str,
    parser: ValueParser<'a>,
    help: &'a str,
) -> Arg<'a>
    ensures rule { rule_of result ≡ record (file_rule id.entry.now) { parser = Some parser.entry } }
    ensures local { result.global ≡ false }
{
    valued(alloc, id, unit, help).value_parser(parser)
}
