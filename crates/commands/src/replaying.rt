//! `replay NET STEPS`: the steps of a journal, done on a network.
ghost use Rattle.std.specs.Prelude.{◌≡◌, ◌≢◌, ℕ, true, List, Some, IfErr, IfOk, OnErr, OnOk, string_bytes};
ghost use Rattle.trace_tables.specs.Text.{tables_text};
ghost use Rattle.commands.specs.declared.fault.Fault.TheVariants.{CannotWrite};
ghost use Rattle.commands.specs.Files.{LacksOutput, ShowsBoth};
ghost use Rattle.commands.specs.Replaying.{IsFaultOfSteps, LacksReplay, ShowsReplay, TellsOfJournal};
ghost use Rattle.commands.specs.Streams.{IsQuiet, Says, Shows};

use crate::conclusion::{Conclusion, conclusion_of};
use crate::fault::Fault;
use crate::host::Host;
use crate::reading::bytes_of;
use crate::sequencing::show_tables;
use crate::telling::say;
use command_line::Replay;
use network::Network;
use std::alloc::Global;

/// Does the journal in the file with this path on a network, and returns its conclusion.
fn conclusion_in<'a, H: Host>(
    alloc: Global,
    network: Network,
    steps: &'a str,
    host: &mut H,
) -> Result<Conclusion, Fault<'a>>
    ensures told { IfOk result (λ conclusion. (bytes : List ℕ) × H.outside.gives host.old steps.entry.now (Some bytes) × TellsOfJournal network bytes conclusion) }
    ensures network { IfOk result (λ conclusion. conclusion.world.plan ≡ network) }
    ensures fault { IfErr result (IsFaultOfSteps H.outside network steps.entry.now host.old host.new) }
    ensures host { OnOk result (host.new ≡ host.old) }
    ensures output { H.outside.output host.new ≡ H.outside.output host.old }
    ensures quiet { IsQuiet H.outside host.old host.new }
{
    match bytes_of(alloc, steps, host) {
        Ok(text) => conclusion_of(alloc, network, text.as_slice()),
        Err(fault) => {
            drop(network);
            Err(fault)
        }
    }
}

/// Writes the conclusion of a journal: its tables to standard output, and then its line to error output.
fn show_conclusion<H: Host>(
    alloc: Global,
    conclusion: &Conclusion,
    host: &mut H,
) -> Result<(), Fault<'static>>
    ensures tables { OnOk result (Shows H.outside host.old host.new (tables_text conclusion.now.world.plan conclusion.now.tables)) }
    ensures line { OnOk result (Says H.outside host.old host.new (string_bytes conclusion.now.line)) }
    ensures fault { IfErr result (LacksOutput H.outside true host.old host.new) }
    ensures kept { IfErr result (λ fault. fault ≢ CannotWrite → H.outside.output host.new ≡ H.outside.output host.old) }
    ensures left { OnOk result (ShowsBoth H.outside host.old host.new) }
    ensures quiet { OnErr result (IsQuiet H.outside host.old host.new) }
{
    show_tables(
        alloc,
        conclusion.world.network(),
        &conclusion.tables,
        host.output(),
    )?;
    say(conclusion.line.as_str(), host.errors());
    Ok(())
}

/// Does the journal in the file that the order names on a network. Then it writes the tables of the committed events to standard output,
/// and the line with the counts to error output, whether the run is finished or not.
pub fn replay<'a, H: Host>(
    alloc: Global,
    network: Network,
    order: &'a Replay,
    host: &mut H,
) -> Result<(), Fault<'a>>
    ensures done { OnOk result (ShowsReplay H.outside host.old host.new network (string_bytes order.entry.now.steps)) }
    ensures fault { IfErr result (LacksReplay H.outside host.old host.new network (string_bytes order.entry.now.steps)) }
    ensures kept { IfErr result (λ fault. fault ≢ CannotWrite → H.outside.output host.new ≡ H.outside.output host.old) }
    ensures quiet { OnErr result (IsQuiet H.outside host.old host.new) }
{
    let conclusion = conclusion_in(alloc, network, order.steps.as_str(), host)?;
    let shown = show_conclusion(alloc, &conclusion, host);
    drop(conclusion);
    shown
}
