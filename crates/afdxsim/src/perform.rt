//! The whole program: from its words to its status.
ghost use Rattle.std.specs.Prelude.{◌≡◌, [], map};
ghost use Rattle.commands.specs.Telling.{IsStatus};
ghost use Rattle.afdxsim.specs.Performing.{AnswersWords, NameTwice, Performs, TouchNoFile, found_in};

use crate::obeying::obey;
use command_line::order;
use commands::{Host, answer};
use std::alloc::Global;
use std::convert::AsStr;
use std::sync::Wait;
use std::thread::Threads;
use std::time::Clock;

/// Runs the whole program. The words are those after its name. Returns the status with which it ends: 0 done, or help was asked for; 2 bad
/// words; 3 a bad description or journal; 4 a file or standard output failed, or a worker did not start; 5 memory or the numbers of a
/// process ran out, or a journal has too many lines or is torn.
///
/// What the words ask for goes to standard output and into files. Bad words are reported on error output by clap's text, and any other
/// fault by one line there; if error output fails, nothing more is written. A fault ends the program at once, and what was written before
/// it stays. Words are also bad if two of the description, the trace and the journal are one file, as far as the host knows: a line names
/// it, and nothing is read, created or written.
pub fn perform<'a, S: AsStr, H: Host, T: Threads + Wait + Clock + Sync>(
    rt: &T,
    alloc: Global,
    words: &'a [S],
    host: &mut H,
) -> u8
    ensures status { IsStatus result }
    ensures words { AnswersWords (map S.text words.entry.now) (NameTwice (H.outside.tells host.old) (map S.text words.entry.now)) result }
    ensures beside { TouchNoFile H.outside host.old host.new (map S.text words.entry.now) }
    ensures ordered { found_in (map S.text words.entry.now) ≡ [] → Performs H.outside host.old host.new (map S.text words.entry.now) result }
{
    match order(alloc, words) {
        Ok(order) => obey(rt, alloc, &order, host),
        Err(error) => answer(alloc, error.kind(), &error, host),
    }
}
