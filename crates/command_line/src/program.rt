//! The words that the program knows, and its help.
ghost use Rattle.std.specs.Prelude.{◌≡◌, IfOk, codes, false};
ghost use Rattle.clap.specs.Words.{App, Rule, app_of, new_app, rule_of, with_rule, with_subcommand};
ghost use Rattle.command_line.specs.Program.{Knows, bare_program, bounds_app, check_app, network_app, program, replay_app, run_app, seq_app, with_outputs, with_paces};

use crate::arguments::{file, flag, path};
use crate::paces::{groups, turn, window, workers};
use clap::{Arg, Command};
use std::alloc::{AllocError, Global};

/// What `--version` prints behind the program's name.
const VERSION: &str = "0.2.0";

const PROGRESS: &str =
    "Prints to error output, at most four times a second, how far the run is and how long it may still take";

const CONTRACT: &str =
    "Prints bounds that hold whatever other end systems send: of their virtual links it counts any frame that policing lets pass";

const BOUNDS: &str =
    "Examples:\n  afdxsim bounds examples/n1.toml\n  afdxsim bounds examples/n1.toml --contract\n\nLines of the output:\n  bound,VL,NAME,NETWORK_NS,WAIT_NS,BOUND_NS,LEAST_NS,JITTER_NS,,,\n      From its release a frame of VL takes NETWORK_NS at most to NAME. From its offer it takes BOUND_NS at most,\n      WAIT_NS of these in the regulator, and LEAST_NS at least. JITTER_NS is BOUND_NS - LEAST_NS\n  port,LINE,,BYTES,HOLDS,,,,,,\n      BYTES wait at most before LINE. HOLDS is yes if the port has room for so many\n  none,VL,NAME,WHY,,,,,,,  or  none,LINE,,WHY,,,,,,,\n      There is no bound. WHY is rate: more may come to a port than its line sends. Or size: each frame is longer\n      than smax\n\nThe bounds hold for any seed, end, outages, offsets, periods and jitters; WAIT_NS for the stated period and jitter.\ndocs/BOUNDS.md has the formula, and an example worked by hand.";

const EXAMPLES: &str =
    "Examples:\n  afdxsim check examples/n1.toml\n  afdxsim seq examples/n1.toml --trace t.csv\n  afdxsim run examples/n1.toml --workers 8 --journal steps.txt\n  afdxsim replay examples/n1.toml steps.txt\n  afdxsim bounds examples/n1.toml\n\nThe program prints the first fault of a description; afdx explain prints all of them at once, each with its line.";

/// The program with its five commands.
pub(crate) fn program<'a>(alloc: Global) -> Result<Command<'a>, AllocError>
    ensures { IfOk result (λ command. app_of command ≡ program) }
{
    let runs = with_command(plain_program(alloc), run(alloc));
    let replays = with_command(runs, replay(alloc));
    with_command(replays, bounds(alloc))
}

/// The program with the two commands that need neither threads nor a journal.
fn plain_program<'a>(alloc: Global) -> Result<Command<'a>, AllocError>
    ensures { IfOk result (λ command. Knows command (with_subcommand (with_subcommand bare_program check_app.top) seq_app.top)) }
{
    let checks = with_command(bare_program(alloc), check(alloc));
    with_command(checks, seq(alloc))
}

/// The program without its commands.
fn bare_program<'a>(alloc: Global) -> Result<Command<'a>, AllocError>
    ensures { IfOk result (λ command. Knows command bare_program) }
{
    let program = named_program(alloc)?;
    Ok(
        program
            .version(VERSION)
            .no_binary_name(true)
            .subcommand_required(true),
    )
}

/// The program's name, and the texts of its help.
fn named_program<'a>(alloc: Global) -> Result<Command<'a>, AllocError>
    ensures { IfOk result (λ command. Knows command (new_app (codes "afdxsim"))) }
{
    titled(
        alloc,
        "afdxsim",
        "Simulates an AFDX network, on one thread or on several with the same result.",
        EXAMPLES,
    )
    .bin_name("afdxsim")
}

fn check<'a>(alloc: Global) -> Result<Command<'a>, AllocError>
    ensures { IfOk result (λ command. Knows command check_app) }
{
    of_network(
        alloc,
        "check",
        "Reads a description, and counts its processes, virtual links and offered frames",
        "Example: afdxsim check examples/n1.toml\n\nIt prints the first fault of a description; afdx explain prints all of them at once, each with its line.",
    )
}

fn seq<'a>(alloc: Global) -> Result<Command<'a>, AllocError>
    ensures { IfOk result (λ command. Knows command seq_app) }
{
    let command = of_network(
        alloc,
        "seq",
        "Simulates the network on one thread, and prints its tables as CSV",
        "Example: afdxsim seq examples/n1.toml --trace t.csv",
    );
    with_outputs(alloc, command)
}

fn run<'a>(alloc: Global) -> Result<Command<'a>, AllocError>
    ensures { IfOk result (λ command. Knows command run_app) }
{
    let command = of_network(
        alloc,
        "run",
        "Simulates the network on several threads, and prints its tables as CSV",
        "Example: afdxsim run examples/n1.toml --workers 8 --journal steps.txt",
    );
    let journals = with_arg(
        with_paces(alloc, command),
        file(
            alloc,
            "journal",
            "Writes the run's steps to this file, for replay",
        ),
    );
    with_outputs(alloc, journals)
}

fn replay<'a>(alloc: Global) -> Result<Command<'a>, AllocError>
    ensures { IfOk result (λ command. Knows command replay_app) }
{
    let command = of_network(
        alloc,
        "replay",
        "Simulates the network by the steps of a journal, and prints the tables of what is final as CSV",
        "Example: afdxsim replay examples/n1.toml steps.txt",
    );
    with_arg(
        command,
        path(alloc, "STEPS", "The journal that run wrote by --journal"),
    )
}

fn bounds<'a>(alloc: Global) -> Result<Command<'a>, AllocError>
    ensures { IfOk result (λ command. Knows command bounds_app) }
{
    let command = of_network(
        alloc,
        "bounds",
        "Prints how long a frame takes at most to each destination, in any run of the network, and how many bytes wait at most at each port, as CSV",
        BOUNDS,
    );
    with_arg(command, flag(alloc, "contract", CONTRACT))
}

/// A command that requires the path of a network's description.
fn of_network<'a>(
    alloc: Global,
    name: &'a str,
    about: &'a str,
    example: &'a str,
) -> Result<Command<'a>, AllocError>
    ensures { IfOk result (λ command. Knows command (network_app name.entry.now)) }
{
    titled(alloc, name, about, example).arg(path(
        alloc,
        "NET",
        "The network's description, a TOML file",
    ))
}

/// A command without arguments.
fn titled<'a>(alloc: Global, name: &'a str, about: &'a str, example: &'a str) -> Command<'a>
    ensures { Knows result (new_app name.entry.now) }
{
    Command::new(alloc, name).about(about).after_help(example)
}

/// A command that also accepts the numbers that set the pace of a run.
fn with_paces<'a>(
    alloc: Global,
    command: Result<Command<'a>, AllocError>,
) -> Result<Command<'a>, AllocError>
    ensures { (known : App) → IfOk command.entry (λ one. Knows one known) → IfOk result (λ new. Knows new (with_paces known)) }
{
    let workers = with_arg(command, workers(alloc));
    let groupings = with_arg(workers, groups(alloc));
    let turns = with_arg(groupings, turn(alloc));
    with_arg(turns, window(alloc))
}

/// A command that can also write the trace, and show how far it is.
fn with_outputs<'a>(
    alloc: Global,
    command: Result<Command<'a>, AllocError>,
) -> Result<Command<'a>, AllocError>
    ensures { (known : App) → IfOk command.entry (λ one. Knows one known) → IfOk result (λ new. Knows new (with_outputs known)) }
{
    let traces = with_arg(
        command,
        file(
            alloc,
            "trace",
            "Writes each delivery and each drop to this file, as CSV",
        ),
    );
    with_arg(traces, flag(alloc, "progress", PROGRESS))
}

/// A command with one more argument. Lack of memory is passed on.
fn with_arg<'a>(
    command: Result<Command<'a>, AllocError>,
    arg: Arg<'a>,
) -> Result<Command<'a>, AllocError>
    ensures { (known : App) (rule : Rule) → IfOk command.entry (λ one. Knows one known) → rule_of arg.entry ≡ rule → arg.entry.global ≡ false
        → IfOk result (λ new. Knows new (with_rule known rule)) }
{
    match command {
        Ok(command) => command.arg(arg),
        Err(error) => {
            drop(arg);
            Err(error)
        }
    }
}

/// A program with one more command. Lack of memory is passed on.
fn with_command<'a>(
    program: Result<Command<'a>, AllocError>,
    command: Result<Command<'a>, AllocError>,
) -> Result<Command<'a>, AllocError>
    ensures { (known added : App) → IfOk program.entry (λ one. Knows one known) → IfOk command.entry (λ one. Knows one added)
        → IfOk result (λ new. Knows new (with_subcommand known added.top)) }
{
    match program {
        Ok(program) => with_one_command(program, command),
        Err(error) => {
            drop(command);
            Err(error)
        }
    }
}

/// A program with one more command, once memory for the program was available.
fn with_one_command<'a>(
    program: Command<'a>,
    command: Result<Command<'a>, AllocError>,
) -> Result<Command<'a>, AllocError>
    ensures { (known added : App) → Knows program.entry known → IfOk command.entry (λ one. Knows one added)
        → IfOk result (λ new. Knows new (with_subcommand known added.top)) }
{
    match command {
        Ok(command) => program.subcommand(command),
        Err(error) => {
            drop(program);
            Err(error)
        }
    }
}
