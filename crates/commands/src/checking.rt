//! `check NET`: counts the contents of a network whose description is accepted.
ghost use Rattle.std.specs.Prelude.{◌≡◌, ◌≢◌, false, IfOk, IfErr, OnOk, string_bytes};
ghost use Rattle.commands.specs.declared.fault.Fault.TheVariants.{CannotWrite};
ghost use Rattle.commands.specs.Checking.{counts_text, check_text};
ghost use Rattle.commands.specs.Ending.{Took, IsFaultOfOutput};
ghost use Rattle.commands.specs.Files.{LacksOutput, ShowsAlone};
ghost use Rattle.commands.specs.Streams.{IsQuiet, Shows};

use crate::fault::Fault;
use crate::host::Host;
use network::Network;
use std::alloc::{AllocError, Global};
use trace_tables::{Sink, write_all};
use traffic::offer_count;

/// Makes the line with the numbers of processes, virtual links and offers.
fn counts_line(alloc: Global, processes: u16, vls: usize, offers: u64) -> Result<String, AllocError>
    ensures { IfOk result (λ line. string_bytes line ≡ counts_text processes vls offers) }
{
    format!(in alloc; "ok: {processes} processes, {vls} virtual links, {offers} offers\n")
}

/// Makes the line of an accepted network: its numbers of processes, virtual links and offers.
fn line_of(alloc: Global, network: &Network) -> Result<String, AllocError>
    ensures { IfOk result (λ line. string_bytes line ≡ check_text network.now) }
{
    let processes = network.process_count();
    let vls = network.vl_count();
    counts_line(alloc, processes, vls, offer_count(network))
}

/// Writes the line of an accepted network.
fn show_counts<O: Sink>(
    alloc: Global,
    network: &Network,
    output: &mut O,
) -> Result<(), Fault<'static>>
    ensures text { OnOk result (Took O.taken output.old output.new (check_text network.now)) }
    ensures fault { IfErr result (IsFaultOfOutput false O.failures output.old output.new) }
    ensures kept { IfErr result (λ fault. fault ≢ CannotWrite → output.new ≡ output.old) }
{
    let line = line_of(alloc, network)?;
    match write_all(output, line.as_bytes()) {
        Ok(()) => Ok(()),
        Err(_) => Err(Fault::CannotWrite),
    }
}

/// Writes to standard output how many processes, virtual links and offers a network has. It runs nothing: it counts the offers without
/// making a list of them.
pub fn check<H: Host>(alloc: Global, network: &Network, host: &mut H) -> Result<(), Fault<'static>>
    ensures text { OnOk result (Shows H.outside host.old host.new (check_text network.now)) }
    ensures left { OnOk result (ShowsAlone H.outside host.old host.new) }
    ensures fault { IfErr result (LacksOutput H.outside false host.old host.new) }
    ensures kept { IfErr result (λ fault. fault ≢ CannotWrite → H.outside.output host.new ≡ H.outside.output host.old) }
    ensures quiet { IsQuiet H.outside host.old host.new }
{
    show_counts(alloc, network, host.output())
}
