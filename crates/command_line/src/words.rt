//! The words that the program is called with.
ghost use Rattle.std.specs.Prelude.{◌≡◌, IfOk, Some, map};
ghost use Rattle.clap.specs.Words.{FailsBy, fault_of};
ghost use Rattle.command_line.specs.Meaning.{HasDefaults, IsWithinLimits, Names, command_in, command_of, rows_in};
ghost use Rattle.command_line.specs.Program.{program};

use crate::commands::order_of;
use crate::orders::Order;
use crate::program::program;
use clap::Error;
use std::alloc::Global;
use std::convert::AsStr;

/// Reads the words after the program's name, and returns the command with its values.
///
/// An error is clap's: a mistake in the words, a request for help, or lack of memory, which comes only if memory was refused. Its `Display`
/// is the text for the user, and its `exit_code` is 0 for help and 2 for a mistake.
pub fn order<'a, S: AsStr>(alloc: Global, words: &'a [S]) -> Result<Order, Error>
    ensures command { IfOk result (λ order. command_in (map S.text words.entry.now) ≡ Some (command_of order)) }
    ensures names { IfOk result (Names (rows_in (map S.text words.entry.now))) }
    ensures defaults { IfOk result (HasDefaults (rows_in (map S.text words.entry.now))) }
    ensures limits { IfOk result IsWithinLimits }
    ensures mistake { FailsBy (fault_of program (map S.text words.entry.now)) result }
{
    let matches = program(alloc)?.try_get_matches_from(words)?;
    let (name, values) = matches.subcommand().unwrap();
    Ok(order_of(alloc, name, values)?)
}
