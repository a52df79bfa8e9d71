//! `run NET [--workers N] [--groups N] [--turn N] [--window NS] [--journal FILE] [--trace FILE] [--progress]`: the run of a network by workers.
ghost use Rattle.std.specs.Prelude.{◌≡◌, ◌≢◌, ◌⊎◌, ℕ, false, List, Some, IfErr, IfOk, OnOk, option_map, is_some, string_bytes};
ghost use Rattle.journal_text.specs.Text.{steps_text};
ghost use Rattle.trace_tables.specs.Text.{tables_text};
ghost use Rattle.network.specs.Words.{process_count};
ghost use Rattle.worker_pool.specs.Outcomes.{CanWantWorkers};
ghost use Rattle.worker_pool.specs.Runs.{IsJournalAsked};
ghost use Rattle.commands.specs.declared.fault.Fault.TheVariants.{CannotWrite};
ghost use Rattle.commands.specs.Files.{LacksFile, MakesAsked, WritesAsked, WritesFile};
ghost use Rattle.commands.specs.Sequencing.{IsTablesText, IsTraceText};
ghost use Rattle.commands.specs.Streams.{IsHeard, IsQuiet, ShowsTables, heard_host};
ghost use Rattle.afdxsim.specs.Files.{LacksRun, LacksTrace, LeavesRun};
ghost use Rattle.afdxsim.specs.Workers.{CanWantThreads, IsFaultOfPool, IsRunLine};

use crate::workers::{found_by_workers, traced_by_workers};
use command_line::Run;
use commands::{Fault, Host, Kept, asked_of, fault_of_trace, keep, make_file, show_tables};
use network::Network;
use std::alloc::Global;
use std::sync::Wait;
use std::thread::Threads;
use std::time::Clock;
use vlink::Step;
use worker_pool::{Summary, Traced};

/// Creates the file with this path, and simulates the network by workers, which write the trace into it. Error output shows how far the run
/// is, if that is asked for. At the end of the run the file is given back with what it took, and then a fault of the trace is reported.
fn simulate_with_trace<'a, H: Host, T: Threads + Wait + Clock + Sync>(
    rt: &T,
    alloc: Global,
    network: &Network,
    order: &Run,
    with_steps: bool,
    path: &'a str,
    is_asked: bool,
    host: &mut H,
) -> Result<Summary, Fault<'a>>
    ensures text { IfOk result (λ found. IsTablesText network.now (tables_text network.now found.tables)) }
    ensures journal { IfOk result (λ found. IsJournalAsked network.now with_steps found.journal.items) }
    ensures trace { OnOk result (WritesFile H.outside path.entry.now (IsTraceText network.now)
        (heard_host H.outside host.old is_asked (H.outside.errors host.new)) host.new) }
    ensures fault { IfErr result (λ fault.
        (IsFaultOfPool network.now Unit fault ×
        MakesAsked H.outside (Some path.entry.now) (heard_host H.outside host.old is_asked (H.outside.errors host.new)) host.new) ⊎
        LacksTrace H.outside path.entry.now network.now (heard_host H.outside host.old is_asked (H.outside.errors host.new)) host.new fault) }
    ensures output { H.outside.output host.new ≡ H.outside.output host.old }
    ensures heard { IsHeard H.outside host.old is_asked (IsRunLine order.now network.now) (H.outside.errors host.new) }
{
    let asked = asked_of(is_asked, host);
    let file = make_file(path, host)?;
    let errors = host.errors();
    let Traced {
        outcome,
        written,
        sink,
    } = traced_by_workers(rt, alloc, network, order, with_steps, file, asked, errors)?;
    host.close(path, sink);
    match written {
        Ok(()) => Ok(outcome),
        Err(why) => Err(fault_of_trace(path, why)),
    }
}

/// Simulates the network by workers, without a trace. Error output shows how far the run is, if that is asked for.
fn heard_by_workers<H: Host, T: Threads + Wait + Clock + Sync>(
    rt: &T,
    alloc: Global,
    network: &Network,
    order: &Run,
    with_steps: bool,
    is_asked: bool,
    host: &mut H,
) -> Result<Summary, Fault<'static>>
    ensures text { IfOk result (λ found. IsTablesText network.now (tables_text network.now found.tables)) }
    ensures journal { IfOk result (λ found. IsJournalAsked network.now with_steps found.journal.items) }
    ensures fault { IfErr result (IsFaultOfPool network.now (CanWantWorkers order.now.workers (process_count network.now))) }
    ensures heard { IsHeard H.outside host.old is_asked (IsRunLine order.now network.now) (H.outside.errors host.new) }
    ensures host { host.new ≡ heard_host H.outside host.old is_asked (H.outside.errors host.new) }
    ensures output { H.outside.output host.new ≡ H.outside.output host.old }
{
    let asked = asked_of(is_asked, host);
    found_by_workers(rt, alloc, network, order, with_steps, asked, host.errors())
}

/// Simulates the network by workers. If a trace is asked for, its file is created first, and the run writes it. Error output shows how far
/// the run is, if that is asked for.
fn simulate<'a, H: Host, T: Threads + Wait + Clock + Sync>(
    rt: &T,
    alloc: Global,
    network: &Network,
    order: &'a Run,
    host: &mut H,
) -> Result<Summary, Fault<'a>>
    ensures text { IfOk result (λ found. IsTablesText network.now (tables_text network.now found.tables)) }
    ensures journal { IfOk result (λ found. IsJournalAsked network.now (is_some order.entry.now.journal) found.journal.items) }
    ensures trace { OnOk result (WritesAsked H.outside (option_map string_bytes order.entry.now.trace) (IsTraceText network.now)
        (heard_host H.outside host.old order.entry.now.progress (H.outside.errors host.new)) host.new) }
    ensures fault { IfErr result (λ fault.
        (IsFaultOfPool network.now (CanWantThreads (option_map string_bytes order.entry.now.trace) order.entry.now.workers network.now) fault ×
        MakesAsked H.outside (option_map string_bytes order.entry.now.trace)
        (heard_host H.outside host.old order.entry.now.progress (H.outside.errors host.new)) host.new) ⊎
        ((path : List ℕ) × (option_map string_bytes order.entry.now.trace ≡ Some path) ×
        LacksTrace H.outside path network.now (heard_host H.outside host.old order.entry.now.progress (H.outside.errors host.new)) host.new fault)) }
    ensures output { H.outside.output host.new ≡ H.outside.output host.old }
    ensures heard { IsHeard H.outside host.old order.entry.now.progress (IsRunLine order.entry.now network.now) (H.outside.errors host.new) }
{
    let with_steps = order.journal.is_some();
    match &order.trace {
        Some(path) => simulate_with_trace(
            rt,
            alloc,
            network,
            order,
            with_steps,
            path.as_str(),
            order.progress,
            host,
        ),
        None => heard_by_workers(rt, alloc, network, order, with_steps, order.progress, host),
    }
}

/// Writes the journal of a run into its file, if one is ordered.
fn keep_journal<'a, H: Host>(
    alloc: Global,
    steps: &[Step],
    order: &'a Run,
    host: &mut H,
) -> Result<(), Fault<'a>>
    ensures file { OnOk result (WritesAsked H.outside (option_map string_bytes order.entry.now.journal) (λ text. text ≡ steps_text steps.now) host.old host.new) }
    ensures fault { IfErr result (λ fault. (path : List ℕ) × (option_map string_bytes order.entry.now.journal ≡ Some path) ×
        LacksFile H.outside false path (λ text. text ≡ steps_text steps.now) host.old host.new fault) }
    ensures output { H.outside.output host.new ≡ H.outside.output host.old }
    ensures quiet { IsQuiet H.outside host.old host.new }
{
    match &order.journal {
        Some(path) => keep(alloc, Kept::Journal(steps), path.as_str(), host),
        None => Ok(()),
    }
}

/// Simulates the network by workers, which write the trace during the run, if one is ordered: its file is created before the run. Error
/// output shows how far the run is, if that is ordered. Then the journal is written into its file, if one is ordered, and then the tables
/// to standard output. A fault ends it at once: what was written stays, and nothing that comes later is created or written. Steps are
/// listed only for a journal, and rows never.
pub fn run<'a, H: Host, T: Threads + Wait + Clock + Sync>(
    rt: &T,
    alloc: Global,
    network: &Network,
    order: &'a Run,
    host: &mut H,
) -> Result<(), Fault<'a>>
    ensures tables { OnOk result (ShowsTables H.outside host.old host.new network.now) }
    ensures left { OnOk result (LeavesRun H.outside (option_map string_bytes order.entry.now.journal) (option_map string_bytes order.entry.now.trace)
        (heard_host H.outside host.old order.entry.now.progress (H.outside.errors host.new)) host.new network.now) }
    ensures fault { IfErr result (LacksRun H.outside (option_map string_bytes order.entry.now.journal) (option_map string_bytes order.entry.now.trace)
        order.entry.now.workers (heard_host H.outside host.old order.entry.now.progress (H.outside.errors host.new)) host.new network.now) }
    ensures kept { IfErr result (λ fault. fault ≢ CannotWrite → H.outside.output host.new ≡ H.outside.output host.old) }
    ensures heard { IsHeard H.outside host.old order.entry.now.progress (IsRunLine order.entry.now network.now) (H.outside.errors host.new) }
{
    let found = simulate(rt, alloc, network, order, host)?;
    keep_journal(alloc, found.journal.as_slice(), order, host)?;
    show_tables(alloc, network, &found.tables, host.output())
}
