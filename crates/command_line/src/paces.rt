//! The numbers that set the pace of a run. The defaults are not clap's, so that each default is a clause of our own.
ghost use Rattle.std.specs.Prelude.{◌≡◌, codes, false};
ghost use Rattle.clap.specs.Words.{rule_of};
ghost use Rattle.vlink.specs.declared.time.TheConstants.{LATEST_NS};
ghost use Rattle.command_line.specs.Program.{number_rule};

use crate::arguments::number;
use clap::{Arg, value_parser};
use std::alloc::Global;
use vlink::LATEST_NS;

/// The greatest number of threads.
pub(crate) const MOST_WORKERS: u64 = 64;
/// The default number of threads.
pub(crate) const USUAL_WORKERS: u64 = 4;
/// The greatest number of groups of processes.
pub(crate) const MOST_GROUPS: u64 = 64;
/// The greatest number of events in a turn.
pub(crate) const MOST_TURN: u64 = 256;
/// The default number of events in a turn.
pub(crate) const USUAL_TURN: u64 = 16;
/// The default window, in ns.
pub(crate) const USUAL_WINDOW_NS: u64 = 1_000_000;

/// `--workers N`.
pub(crate) fn workers<'a>(alloc: Global) -> Arg<'a>
    ensures rule { rule_of result ≡ number_rule (codes "workers") 64 }
    ensures local { result.global ≡ false }
{
    number(
        alloc,
        "workers",
        "N",
        value_parser!(u64).range(1..=MOST_WORKERS as i64),
        "Number of threads: 1 to 64 [default: 4], and never more than groups of processes. One thread also runs ahead and rolls back; seq is the run that does not. Use more than one if many events fall within some 8 us of simulated time and few frames go between the groups",
    )
}

/// `--groups N`.
pub(crate) fn groups<'a>(alloc: Global) -> Arg<'a>
    ensures rule { rule_of result ≡ number_rule (codes "groups") 64 }
    ensures local { result.global ≡ false }
{
    number(
        alloc,
        "groups",
        "N",
        value_parser!(u64).range(1..=MOST_GROUPS as i64),
        "Number of groups of processes: 1 to 64, and never more than processes [default: each process alone, if there are at most 16; otherwise two for each thread, at most 64]. The tables do not depend on it",
    )
}

/// `--turn N`.
pub(crate) fn turn<'a>(alloc: Global) -> Arg<'a>
    ensures rule { rule_of result ≡ number_rule (codes "turn") 256 }
    ensures local { result.global ≡ false }
{
    number(
        alloc,
        "turn",
        "N",
        value_parser!(u64).range(1..=MOST_TURN as i64),
        "The most events that a group of processes handles in one turn: 1 to 256 [default: 16]. Between turns it sends and receives messages",
    )
}

/// `--window NS`.
pub(crate) fn window<'a>(alloc: Global) -> Arg<'a>
    ensures rule { rule_of result ≡ number_rule (codes "window") LATEST_NS }
    ensures local { result.global ≡ false }
{
    number(
        alloc,
        "window",
        "NS",
        value_parser!(u64).range(1..=LATEST_NS as i64),
        "How far a group of processes may run ahead of the global virtual time that it saw, in ns: 1 to 1000000000000000 [default: 1000000]. It is an upper bound: workers keep groups within some 8 us of each other by themselves",
    )
}
