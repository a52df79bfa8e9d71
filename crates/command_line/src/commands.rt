//! The order that the values of a command make.
ghost use Rattle.std.specs.Prelude.{◌≡◌, ◌≤◌, IfOk, IfSome, true, codes, is_some, option_map};
ghost use Rattle.clap.specs.Words.{first_of, found_of, one_of, rows_of};
ghost use Rattle.vlink.specs.declared.time.TheConstants.{LATEST_NS};
ghost use Rattle.command_line.specs.Given.{IsGiven, IsUpTo};
ghost use Rattle.command_line.specs.Meaning.{HasDefaults, IsWithinLimits, Names, NamesBounds, NamesCheck, NamesReplay, NamesRun, NamesSeq, RunDefaults, RunLimits, command_of, number_in};

use crate::orders::{Bounds, Check, Order, Replay, Run, Seq};
use crate::paces::{
    MOST_GROUPS, MOST_TURN, MOST_WORKERS, USUAL_TURN, USUAL_WINDOW_NS, USUAL_WORKERS,
};
use crate::values::{given_text_of, is_named, named_number, number_of, text_of};
use clap::ArgMatches;
use std::alloc::{AllocError, Global};
use vlink::LATEST_NS;

/// Makes the order of a command from the values that clap read for it.
pub(crate) fn order_of(
    alloc: Global,
    name: &str,
    values: &ArgMatches<'_>,
) -> Result<Order, AllocError>
    requires { IsGiven name.now (rows_of (found_of values.now)) }
    ensures command { IfOk result (λ order. command_of order ≡ name.now) }
    ensures names { IfOk result (Names (rows_of (found_of values.now))) }
    ensures defaults { IfOk result (HasDefaults (rows_of (found_of values.now))) }
    ensures limits { IfOk result IsWithinLimits }
{
    match name {
        "check" => Ok(Order::Check(check_of(alloc, values)?)),
        "seq" => Ok(Order::Seq(seq_of(alloc, values)?)),
        "run" => Ok(Order::Run(run_of(alloc, values)?)),
        "replay" => Ok(Order::Replay(replay_of(alloc, values)?)),
        "bounds" => Ok(Order::Bounds(bounds_of(alloc, values)?)),
        _ => unreachable!(),
    }
}

fn check_of(alloc: Global, values: &ArgMatches<'_>) -> Result<Check, AllocError>
    requires { is_some (first_of (codes "NET") (rows_of (found_of values.now))) ≡ true }
    ensures names { IfOk result (NamesCheck (rows_of (found_of values.now))) }
{
    let net = given_text_of(alloc, values, "NET")?;
    Ok(Check { net })
}

fn seq_of(alloc: Global, values: &ArgMatches<'_>) -> Result<Seq, AllocError>
    requires { is_some (first_of (codes "NET") (rows_of (found_of values.now))) ≡ true }
    ensures names { IfOk result (NamesSeq (rows_of (found_of values.now))) }
{
    let net = given_text_of(alloc, values, "NET")?;
    let trace = text_of(alloc, values, "trace")?;
    Ok(Seq {
        net,
        trace,
        progress: is_named(values, "progress"),
    })
}

fn run_of(alloc: Global, values: &ArgMatches<'_>) -> Result<Run, AllocError>
    requires net { is_some (first_of (codes "NET") (rows_of (found_of values.now))) ≡ true }
    requires workers { IsUpTo 64 (one_of (codes "workers") (rows_of (found_of values.now))) }
    requires groups { IsUpTo 64 (one_of (codes "groups") (rows_of (found_of values.now))) }
    requires turn { IsUpTo 256 (one_of (codes "turn") (rows_of (found_of values.now))) }
    requires window { IsUpTo LATEST_NS (one_of (codes "window") (rows_of (found_of values.now))) }
    ensures names { IfOk result (NamesRun (rows_of (found_of values.now))) }
    ensures defaults { IfOk result (RunDefaults (rows_of (found_of values.now))) }
    ensures limits { IfOk result RunLimits }
{
    let workers = number_of(values, "workers", USUAL_WORKERS, MOST_WORKERS);
    let groups = groups_of(values);
    let turn = number_of(values, "turn", USUAL_TURN, MOST_TURN);
    let window_ns = number_of(values, "window", USUAL_WINDOW_NS, LATEST_NS);
    let net = given_text_of(alloc, values, "NET")?;
    let journal = text_of(alloc, values, "journal")?;
    let trace = text_of(alloc, values, "trace")?;
    Ok(Run {
        net,
        workers: workers as u8,
        groups,
        turn: turn as u16,
        window_ns,
        journal,
        trace,
        progress: is_named(values, "progress"),
    })
}

/// Returns the number of groups, if one is given.
fn groups_of(values: &ArgMatches<'_>) -> Option<u8>
    requires { IsUpTo 64 (one_of (codes "groups") (rows_of (found_of values.now))) }
    ensures value { result ≡ option_map number_in (one_of (codes "groups") (rows_of (found_of values.now))) }
    ensures limits { IfSome result (λ n. (1 ≤ n) × (n ≤ 64)) }
{
    match named_number(values, "groups", MOST_GROUPS) {
        Some(groups) => Some(groups as u8),
        None => None,
    }
}

fn replay_of(alloc: Global, values: &ArgMatches<'_>) -> Result<Replay, AllocError>
    requires net { is_some (first_of (codes "NET") (rows_of (found_of values.now))) ≡ true }
    requires steps { is_some (first_of (codes "STEPS") (rows_of (found_of values.now))) ≡ true }
    ensures names { IfOk result (NamesReplay (rows_of (found_of values.now))) }
{
    let net = given_text_of(alloc, values, "NET")?;
    let steps = given_text_of(alloc, values, "STEPS")?;
    Ok(Replay { net, steps })
}

fn bounds_of(alloc: Global, values: &ArgMatches<'_>) -> Result<Bounds, AllocError>
    requires { is_some (first_of (codes "NET") (rows_of (found_of values.now))) ≡ true }
    ensures names { IfOk result (NamesBounds (rows_of (found_of values.now))) }
{
    let net = given_text_of(alloc, values, "NET")?;
    Ok(Bounds {
        net,
        contract: is_named(values, "contract"),
    })
}
