//! `seq NET [--trace FILE] [--progress]`: the one-thread run of a network.
ghost use Rattle.std.specs.Prelude.{◌≡◌, ◌≢◌, true, false, None, Some, IfErr, IfOk, OnOk, option_map, string_bytes};
ghost use Rattle.seqsim.specs.Networks.{AreRowsOf};
ghost use Rattle.trace_tables.specs.Text.{tables_text};
ghost use Rattle.commands.specs.declared.fault.Fault.TheVariants.{CannotWrite};
ghost use Rattle.commands.specs.Ending.{Took, IsFaultOfOutput};
ghost use Rattle.commands.specs.Files.{LacksSeq, LeavesSeq, ShowsAlone};
ghost use Rattle.commands.specs.Progress.{HearsAsked, IsProgressLine};
ghost use Rattle.commands.specs.Sequencing.{IsTablesText, IsFaultOfRun};
ghost use Rattle.commands.specs.Streams.{IsHeard, ShowsTables, heard_host};

use crate::fault::Fault;
use crate::host::Host;
use crate::keeping::{Kept, keep};
use crate::progress::{Asked, Progress, asked_of};
use command_line::Seq;
use network::Network;
use seq_tables::run_tables;
use seqsim::{Finished, run};
use std::alloc::Global;
use std::time::Clock;
use trace_tables::{OutFault, Sink, Tables, write_csv};

/// Writes the tables of a run to standard output.
pub fn show_tables<O: Sink>(
    alloc: Global,
    network: &Network,
    tables: &Tables,
    output: &mut O,
) -> Result<(), Fault<'static>>
    ensures text { OnOk result (Took O.taken output.old output.new (tables_text network.now tables.now)) }
    ensures fault { IfErr result (IsFaultOfOutput true O.failures output.old output.new) }
    ensures kept { IfErr result (λ fault. fault ≢ CannotWrite → output.new ≡ output.old) }
{
    match write_csv(alloc, network, tables, output) {
        Ok(()) => Ok(()),
        Err(OutFault::Device) => Err(Fault::CannotWrite),
        Err(OutFault::Layout) => Err(Fault::Layout),
        Err(OutFault::OutOfMemory) => Err(Fault::OutOfMemory),
    }
}

/// Makes the tables of the one-thread run of the network. Error output shows how far it is, if that is asked for.
#[tactic(auto, using(crate::proofs::Running::tables_made, crate::proofs::Running::lacked_memory))]
fn tables_of_run<E: Sink, T: Clock>(
    rt: &T,
    alloc: Global,
    network: &Network,
    asked: Asked,
    errors: &mut E,
) -> Result<Tables, Fault<'static>>
    ensures text { IfOk result (λ tables. IsTablesText network.now (tables_text network.now tables)) }
    ensures fault { IfErr result (IsFaultOfRun false network.now) }
    ensures heard { HearsAsked E.taken E.failures asked.is_asked (IsProgressLine network.now.until) errors.old errors.new }
{
    let mut progress = Progress::new(rt, alloc, network.until(), asked, errors);
    let tables = run_tables(alloc, network, &mut progress)?;
    progress.end();
    Ok(tables)
}

/// Does the one-thread run of the network, with its rows. Error output shows how far it is, if that is asked for.
#[tactic(auto, using(crate::proofs::Running::tables_made, crate::proofs::Running::given_up))]
fn whole_run<E: Sink, T: Clock>(
    rt: &T,
    alloc: Global,
    network: &Network,
    asked: Asked,
    errors: &mut E,
) -> Result<Finished, Fault<'static>>
    ensures text { IfOk result (λ finished. IsTablesText network.now (tables_text network.now finished.tables)) }
    ensures rows { IfOk result (λ finished. AreRowsOf network.now finished.rows.items) }
    ensures fault { IfErr result (IsFaultOfRun true network.now) }
    ensures heard { HearsAsked E.taken E.failures asked.is_asked (IsProgressLine network.now.until) errors.old errors.new }
{
    let mut progress = Progress::new(rt, alloc, network.until(), asked, errors);
    let finished = run(alloc, network, &mut progress)?;
    progress.end();
    Ok(finished)
}

/// Makes these tables, with the error output of the host.
fn heard_tables<H: Host, T: Clock>(
    rt: &T,
    alloc: Global,
    network: &Network,
    is_asked: bool,
    host: &mut H,
) -> Result<Tables, Fault<'static>>
    ensures text { IfOk result (λ tables. IsTablesText network.now (tables_text network.now tables)) }
    ensures fault { IfErr result (IsFaultOfRun false network.now) }
    ensures heard { IsHeard H.outside host.old is_asked (IsProgressLine network.now.until) (H.outside.errors host.new) }
    ensures host { host.new ≡ heard_host H.outside host.old is_asked (H.outside.errors host.new) }
    ensures output { H.outside.output host.new ≡ H.outside.output host.old }
{
    let asked = asked_of(is_asked, host);
    tables_of_run(rt, alloc, network, asked, host.errors())
}

/// Does this run with its rows, with the error output of the host.
fn heard_run<H: Host, T: Clock>(
    rt: &T,
    alloc: Global,
    network: &Network,
    is_asked: bool,
    host: &mut H,
) -> Result<Finished, Fault<'static>>
    ensures text { IfOk result (λ finished. IsTablesText network.now (tables_text network.now finished.tables)) }
    ensures rows { IfOk result (λ finished. AreRowsOf network.now finished.rows.items) }
    ensures fault { IfErr result (IsFaultOfRun true network.now) }
    ensures heard { IsHeard H.outside host.old is_asked (IsProgressLine network.now.until) (H.outside.errors host.new) }
    ensures host { host.new ≡ heard_host H.outside host.old is_asked (H.outside.errors host.new) }
    ensures output { H.outside.output host.new ≡ H.outside.output host.old }
{
    let asked = asked_of(is_asked, host);
    whole_run(rt, alloc, network, asked, host.errors())
}

/// Simulates the network on one thread, shows on error output how far it is, if that is asked for, and writes its tables to standard
/// output.
fn run_to_tables<H: Host, T: Clock>(
    rt: &T,
    alloc: Global,
    network: &Network,
    is_asked: bool,
    host: &mut H,
) -> Result<(), Fault<'static>>
    ensures tables { OnOk result (ShowsTables H.outside host.old host.new network.now) }
    ensures left { OnOk result (ShowsAlone H.outside (heard_host H.outside host.old is_asked (H.outside.errors host.new)) host.new) }
    ensures fault { IfErr result (LacksSeq H.outside None (heard_host H.outside host.old is_asked (H.outside.errors host.new)) host.new network.now) }
    ensures kept { IfErr result (λ fault. fault ≢ CannotWrite → H.outside.output host.new ≡ H.outside.output host.old) }
    ensures heard { IsHeard H.outside host.old is_asked (IsProgressLine network.now.until) (H.outside.errors host.new) }
{
    let tables = heard_tables(rt, alloc, network, is_asked, host)?;
    let shown = show_tables(alloc, network, &tables, host.output());
    drop(tables);
    shown
}

/// Simulates the network on one thread and shows on error output how far it is, if that is asked for. Then it creates the file with this
/// path, writes the trace into it, and writes the tables to standard output.
fn run_to_trace<'a, H: Host, T: Clock>(
    rt: &T,
    alloc: Global,
    network: &Network,
    path: &'a str,
    is_asked: bool,
    host: &mut H,
) -> Result<(), Fault<'a>>
    ensures tables { OnOk result (ShowsTables H.outside host.old host.new network.now) }
    ensures left { OnOk result (LeavesSeq H.outside (Some path.entry.now) (heard_host H.outside host.old is_asked (H.outside.errors host.new)) host.new network.now) }
    ensures fault { IfErr result (LacksSeq H.outside (Some path.entry.now) (heard_host H.outside host.old is_asked (H.outside.errors host.new)) host.new network.now) }
    ensures kept { IfErr result (λ fault. fault ≢ CannotWrite → H.outside.output host.new ≡ H.outside.output host.old) }
    ensures heard { IsHeard H.outside host.old is_asked (IsProgressLine network.now.until) (H.outside.errors host.new) }
{
    let finished = heard_run(rt, alloc, network, is_asked, host)?;
    let rows = finished.rows.as_slice();
    keep(alloc, Kept::Trace(network, rows), path, host)?;
    show_tables(alloc, network, &finished.tables, host.output())
}

/// Simulates the network on one thread, and shows on error output how far it is, if that is ordered. Then it writes the trace into its
/// file, if one is ordered, and then the tables to standard output. If no trace is ordered, the rows are not stored.
pub fn seq<'a, H: Host, T: Clock>(
    rt: &T,
    alloc: Global,
    network: &Network,
    order: &'a Seq,
    host: &mut H,
) -> Result<(), Fault<'a>>
    ensures tables { OnOk result (ShowsTables H.outside host.old host.new network.now) }
    ensures left { OnOk result (LeavesSeq H.outside (option_map string_bytes order.entry.now.trace)
        (heard_host H.outside host.old order.entry.now.progress (H.outside.errors host.new)) host.new network.now) }
    ensures fault { IfErr result (LacksSeq H.outside (option_map string_bytes order.entry.now.trace)
        (heard_host H.outside host.old order.entry.now.progress (H.outside.errors host.new)) host.new network.now) }
    ensures kept { IfErr result (λ fault. fault ≢ CannotWrite → H.outside.output host.new ≡ H.outside.output host.old) }
    ensures heard { IsHeard H.outside host.old order.entry.now.progress (IsProgressLine network.now.until) (H.outside.errors host.new) }
{
    let asked = order.progress;
    match &order.trace {
        Some(path) => run_to_trace(rt, alloc, network, path.as_str(), asked, host),
        None => run_to_tables(rt, alloc, network, asked, host),
    }
}
