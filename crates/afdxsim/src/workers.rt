//! A run by workers: its tables, and what else is asked for.
ghost use Rattle.std.specs.Prelude.{◌≡◌, ◌≢◌, ◌+◌, List, IfErr, IfOk, OnOk};
ghost use Rattle.vlink.specs.Letters.{Row};
ghost use Rattle.network.specs.Words.{process_count};
ghost use Rattle.trace_segments.specs.declared.fault.OutFault.TheVariants.{Device};
ghost use Rattle.trace_segments.specs.declared.trace_fault.TraceFault.TheVariants.{Out};
ghost use Rattle.trace_segments.specs.Words.{IsBeginning, trace_text};
ghost use Rattle.trace_tables.specs.Text.{tables_text};
ghost use Rattle.seqsim.specs.Networks.{AreRowsOf};
ghost use Rattle.worker_pool.specs.Outcomes.{CanWantWorkers};
ghost use Rattle.worker_pool.specs.Paces.{actual_pace};
ghost use Rattle.worker_pool.specs.Runs.{IsJournalAsked};
ghost use Rattle.commands.specs.Ending.{Took};
ghost use Rattle.commands.specs.Progress.{HearsAsked, IsProgressLine, groups_text};
ghost use Rattle.commands.specs.Sequencing.{IsTablesText};
ghost use Rattle.afdxsim.specs.Workers.{IsFaultOfPool, IsRunLine, ordered_pace, run_pace};

use command_line::Run;
use commands::{Asked, Fault, Progress, tell_groups};
use network::Network;
use std::alloc::Global;
use std::sync::Wait;
use std::thread::Threads;
use std::time::Clock;
use trace_tables::Sink;
use worker_pool::{Gate, Pace, Summary, Traced, group_number, run_summary, run_traced};

/// A gate that does nothing.
pub struct Open;

impl Gate for Open {
    fn hears(&self) -> bool {
        false
    }

    fn before(&self, _process: u16, _run: u64) {}

    fn after(&self, _process: u16, _run: u64) {}
}

/// Returns the pace that is ordered: as many groups as are ordered, or otherwise as such a network has, and no more workers than groups.
fn pace_of(network: &Network, order: &Run) -> Pace
    ensures { result ≡ ordered_pace (process_count network.now) order.now }
{
    let groups = group_number(network, order.workers, order.groups);
    let workers = u16::from(order.workers).min(groups);
    Pace {
        workers: workers as u8,
        groups,
        turn: order.turn,
        window_ns: order.window_ns,
    }
}

/// Runs the network by workers at this pace, and returns its tables, and its steps if they are asked for. Lists no rows. Error output shows
/// how far the run is, if that is asked for.
#[tactic(auto, using(commands::proofs::Running::tables_made, crate::proofs::Running::workers_gave_up))]
fn found_at<E: Sink, T: Threads + Wait + Clock + Sync>(
    rt: &T,
    alloc: Global,
    network: &Network,
    pace: Pace,
    with_steps: bool,
    asked: Asked,
    errors: &mut E,
) -> Result<Summary, Fault<'static>>
    ensures text { IfOk result (λ found. IsTablesText network.now (tables_text network.now found.tables)) }
    ensures journal { IfOk result (λ found. IsJournalAsked network.now with_steps found.journal.items) }
    ensures pace { IfOk result (λ found. found.pace ≡ actual_pace (process_count network.now) pace) }
    ensures fault { IfErr result (IsFaultOfPool network.now (CanWantWorkers pace.workers (process_count network.now))) }
    ensures heard { HearsAsked E.taken E.failures asked.is_asked (IsProgressLine network.now.until) errors.old errors.new }
{
    let mut progress = Progress::new(rt, alloc, network.until(), asked, errors);
    let found = run_summary(rt, alloc, network, pace, with_steps, &Open, &mut progress)?;
    progress.end();
    Ok(found)
}

/// Writes to error output how many groups and workers a run had, if progress is asked for.
fn tell_pace<E: Sink>(alloc: Global, found: &Summary, asked: Asked, errors: &mut E)
    ensures { HearsAsked E.taken E.failures asked.is_asked (λ line. line ≡ groups_text found.now.pace.groups found.now.pace.workers) errors.old errors.new }
{
    let pace = &found.pace;
    tell_groups(alloc, pace.groups(), pace.workers(), asked, errors);
}

/// Does the run that is ordered, and returns its tables, and its steps if they are asked for. If that is asked for, error output shows how
/// far the run is, and at its end how many groups and workers it had.
pub fn found_by_workers<E: Sink, T: Threads + Wait + Clock + Sync>(
    rt: &T,
    alloc: Global,
    network: &Network,
    order: &Run,
    with_steps: bool,
    asked: Asked,
    errors: &mut E,
) -> Result<Summary, Fault<'static>>
    ensures text { IfOk result (λ found. IsTablesText network.now (tables_text network.now found.tables)) }
    ensures journal { IfOk result (λ found. IsJournalAsked network.now with_steps found.journal.items) }
    ensures pace { IfOk result (λ found. found.pace ≡ run_pace order.now network.now) }
    ensures fault { IfErr result (IsFaultOfPool network.now (CanWantWorkers order.now.workers (process_count network.now))) }
    ensures heard { HearsAsked E.taken E.failures asked.is_asked (IsRunLine order.now network.now) errors.old errors.new }
{
    let pace = pace_of(network, order);
    let found = found_at(rt, alloc, network, pace, with_steps, asked, errors)?;
    tell_pace(alloc, &found, asked, errors);
    Ok(found)
}

/// Does a run at this pace that writes its trace into this file, which is given back at the end of the run. The file then has a beginning
/// of the trace of the one-thread run, whatever became of its writing. If the run itself is given up, the file is dropped.
#[tactic(auto, using(commands::proofs::Running::tables_made, crate::proofs::Running::tracers_gave_up))]
fn traced_at<F: Sink + Drop + Send, E: Sink, T: Threads + Wait + Clock + Sync>(
    rt: &T,
    alloc: Global,
    network: &Network,
    pace: Pace,
    with_steps: bool,
    file: F,
    asked: Asked,
    errors: &mut E,
) -> Result<Traced<F>, Fault<'static>>
    ensures text { IfOk result (λ found. IsTablesText network.now (tables_text network.now found.outcome.tables)) }
    ensures journal { IfOk result (λ found. IsJournalAsked network.now with_steps found.outcome.journal.items) }
    ensures pace { IfOk result (λ found. found.outcome.pace ≡ actual_pace (process_count network.now) pace) }
    ensures trace { IfOk result (λ found. OnOk found.written ((rows : List Row) → AreRowsOf network.now rows →
        Took F.taken file found.sink (trace_text network.now rows))) }
    ensures beginning { IfOk result (λ found. (rows : List Row) → AreRowsOf network.now rows →
        IsBeginning (F.taken file) (F.taken found.sink) (trace_text network.now rows)) }
    ensures device { IfOk result (λ found. IfErr found.written (λ why. why ≡ Out Device → F.failures found.sink ≡ F.failures file + 1)) }
    ensures kept { IfOk result (λ found. IfErr found.written (λ why. why ≢ Out Device → F.failures found.sink ≡ F.failures file)) }
    ensures fault { IfErr result (IsFaultOfPool network.now Unit) }
    ensures heard { HearsAsked E.taken E.failures asked.is_asked (IsProgressLine network.now.until) errors.old errors.new }
{
    let mut progress = Progress::new(rt, alloc, network.until(), asked, errors);
    let found = run_traced(
        rt,
        alloc,
        network,
        pace,
        with_steps,
        &Open,
        file,
        &mut progress,
    )?;
    progress.end();
    Ok(found)
}

/// Does the run that is ordered, which writes its trace into this file. If that is asked for, error output shows how far the run is, and at
/// its end how many groups and workers it had.
pub fn traced_by_workers<F: Sink + Drop + Send, E: Sink, T: Threads + Wait + Clock + Sync>(
    rt: &T,
    alloc: Global,
    network: &Network,
    order: &Run,
    with_steps: bool,
    file: F,
    asked: Asked,
    errors: &mut E,
) -> Result<Traced<F>, Fault<'static>>
    ensures text { IfOk result (λ found. IsTablesText network.now (tables_text network.now found.outcome.tables)) }
    ensures journal { IfOk result (λ found. IsJournalAsked network.now with_steps found.outcome.journal.items) }
    ensures pace { IfOk result (λ found. found.outcome.pace ≡ run_pace order.now network.now) }
    ensures trace { IfOk result (λ found. OnOk found.written ((rows : List Row) → AreRowsOf network.now rows →
        Took F.taken file found.sink (trace_text network.now rows))) }
    ensures beginning { IfOk result (λ found. (rows : List Row) → AreRowsOf network.now rows →
        IsBeginning (F.taken file) (F.taken found.sink) (trace_text network.now rows)) }
    ensures device { IfOk result (λ found. IfErr found.written (λ why. why ≡ Out Device → F.failures found.sink ≡ F.failures file + 1)) }
    ensures kept { IfOk result (λ found. IfErr found.written (λ why. why ≢ Out Device → F.failures found.sink ≡ F.failures file)) }
    ensures fault { IfErr result (IsFaultOfPool network.now Unit) }
    ensures heard { HearsAsked E.taken E.failures asked.is_asked (IsRunLine order.now network.now) errors.old errors.new }
{
    let pace = pace_of(network, order);
    let found = traced_at(rt, alloc, network, pace, with_steps, file, asked, errors)?;
    tell_pace(alloc, &found.outcome, asked, errors);
    Ok(found)
}
