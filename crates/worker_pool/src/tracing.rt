//! The run of a network by workers that write its trace while it goes on.
ghost use Rattle.std.specs.Prelude.{◌≡◌, ◌≢◌, ◌+◌, Err, List, length, min, IfOk, IfErr, IfSome, IsOkAnd, OnOk};
ghost use Rattle.std.specs.Io.KnownBytes.{append_known};
ghost use Rattle.vlink.specs.Letters.{Row};
ghost use Rattle.network.specs.Words.{process_count};
ghost use Rattle.journal.specs.declared.fault.PoolFault.TheVariants.{Exhausted, JournalFull};
ghost use Rattle.trace_segments.specs.declared.fault.OutFault.TheVariants.{Device};
ghost use Rattle.trace_segments.specs.declared.trace_fault.TraceFault.TheVariants.{Out};
ghost use Rattle.trace_segments.specs.Words.{IsBeginning, trace_text};
ghost use Rattle.trace_tables.specs.Tables.{tables_of};
ghost use Rattle.seqsim.specs.Networks.{AreRowsOf};
ghost use Rattle.worker_pool.specs.Outcomes.{HandsOnFaults, TakesMany, UsesUpNumbers};
ghost use Rattle.worker_pool.specs.Paces.{actual_pace, pace_in, pace_of};
ghost use Rattle.worker_pool.specs.Runs.{IsEnded, IsJournalAsked, IsSummaryOf};
ghost use Rattle.worker_pool.specs.Starts.{BeginsRun};
ghost use Rattle.run_rows.specs.Written.{IsFaultOfTrace, IsPlaceFault, IsWritten};

use crate::batches::write_batches;
use crate::desk::TraceLock;
use crate::ending::Unlocked;
use crate::grouping::marked_groups;
use crate::leaving::Leaving;
use crate::pace::Pace;
use crate::running::run_to_end;
use crate::start::{Start, StartOf};
use crate::summary::{Summary, summary_of};
use actor_run::Watch;
use crossbeam_channel::{Receiver, bounded};
use group_turns::RunFault;
use journal::{Gate, PoolFault};
use network::Network;
use network_runs::NetworkRun;
use run_rows::{Counted, RunBatch, TraceRun, Writing};
use std::alloc::{AllocError, Global};
use std::marker::Brand;
use std::sync::Wait;
use std::thread;
use std::thread::{JoinHandle, Threads};
use trace_tables::{SegmentFault, Sink, TraceFault};

/// The number of batches that can wait for the writer's thread. With one more, workers wait.
const MOST_BATCHES: usize = 16;

/// The results of a run whose trace was written while it went on, the result of the writing, and the sink.
#[derive(Drop)]
pub struct Traced<S> {
    pub outcome: Summary,
    pub written: Result<(), TraceFault>,
    pub sink: S,
}

/// Runs a network, whose rows go to the trace, until it is ended. It sends no batch to the writer's thread after that, which otherwise
/// would wait for it. Returns the run, and the first fault of a segment.
fn run_to_trace<
    'n,
    J: NetworkRun + Send + Sync,
    G: Gate + Sync,
    T: Threads + Wait + Sync,
    W: Watch,
>(
    rt: &T,
    alloc: Global,
    start: StartOf<'n, J>,
    gate: &G,
    trace: TraceLock<J>,
    watch: &mut W,
) -> (Result<Unlocked<'n, J>, RunFault<J>>, Option<SegmentFault>)
    ensures ended { IfOk result.0 (λ r. IsEnded J.plan J.owners r.exchange.steps r.groups.items) }
    ensures pace { IfOk result.0 (λ r. pace_of r.speed (length r.groups.items) ≡ pace_in start.entry.grouping.groups start.entry.pace) }
    ensures fault { IfSome result.1 IsPlaceFault }
    ensures told { HandsOnFaults (min start.entry.grouping.groups start.entry.pace.workers) result.0 }
    ensures watched { W.becomes watch.old watch.new }
{
    let leaving = Leaving::Trace(&trace);
    let ended = run_to_end::<J, G, T, W>(rt, alloc, start, gate, &leaving, watch);
    (ended, trace.into_fault())
}

/// Returns the results of a run, some of whose rows are already counted, if it was not refused.
fn summary_told<J: NetworkRun>(
    alloc: Global,
    ended: Result<Unlocked<'_, J>, RunFault<J>>,
    counted: Counted<J>,
    with_steps: bool,
) -> Result<Summary, PoolFault>
    requires ended { IfOk ended (λ r. IsEnded J.plan J.owners r.exchange.steps r.groups.items) }
    requires keeps { with_steps ≡ J.keeps }
    ensures found { IfOk result (λ s. IsSummaryOf J.plan J.keeps s.tables s.journal.items) }
    ensures pace { IfOk result (λ s. IsOkAnd ended.entry (λ r. s.pace ≡ pace_of r.speed (length r.groups.items))) }
    ensures told { IfErr ended.entry (λ fault. result ≡ Err fault) }
    ensures exhausted { IfErr result (λ fault. fault ≡ Exhausted → UsesUpNumbers J.plan) }
    ensures full { IfErr result (λ fault. fault ≡ JournalFull → TakesMany J.plan J.keeps) }
{
    match ended {
        Ok(ended) => summary_of(alloc, ended, counted, with_steps),
        Err(fault) => {
            drop(counted);
            Err(PoolFault::from(fault))
        }
    }
}

/// Returns the results of a run, if it was not refused, with the result of writing its trace and this first fault of a segment.
fn traced_of<'a, J: NetworkRun, K: TraceRun, S: Sink + Drop>(
    summary: Result<Summary, PoolFault>,
    writing: Writing<'a, J, K, S>,
    fault: Option<SegmentFault>,
) -> Result<Traced<S>, PoolFault>
    requires found { IfOk summary (λ s. IsSummaryOf J.plan J.keeps s.tables s.journal.items) }
    requires fault { IfSome fault IsPlaceFault }
    requires exhausted { IfErr summary (λ fault. fault ≡ Exhausted → UsesUpNumbers J.plan) }
    requires full { IfErr summary (λ fault. fault ≡ JournalFull → TakesMany J.plan J.keeps) }
    ensures found { IfOk result (λ t. IsSummaryOf J.plan J.keeps t.outcome.tables t.outcome.journal.items) }
    ensures pace { IfOk result (λ t. IsOkAnd summary (λ s. t.outcome.pace ≡ s.pace)) }
    ensures told { IfErr summary (λ fault. result ≡ Err fault) }
    ensures written { IfOk result (λ t. IsWritten J.plan K.taken K.failures t.written (S.taken t.sink) (S.failures t.sink)) }
    ensures exhausted { IfErr result (λ fault. fault ≡ Exhausted → UsesUpNumbers J.plan) }
    ensures full { IfErr result (λ fault. fault ≡ JournalFull → TakesMany J.plan J.keeps) }
{
    match summary {
        Ok(outcome) => {
            let (written, sink) = writing.finish(fault);
            Ok(Traced {
                outcome,
                written,
                sink,
            })
        }
        Err(fault) => {
            drop(writing);
            Err(fault)
        }
    }
}

/// Runs a network whose trace a thread writes that was already started, and joins that thread. The watch is given back.
fn run_beside<
    'a,
    J: NetworkRun + Send + Sync,
    K: TraceRun,
    S: Sink + Drop,
    G: Gate + Sync,
    T: Threads + Wait + Sync,
    W: Watch + Drop,
>(
    rt: &T,
    alloc: Global,
    start: StartOf<'_, J>,
    gate: &G,
    trace: TraceLock<J>,
    watch: W,
    writer: JoinHandle<(Writing<'a, J, K, S>, Counted<J>)>,
) -> (Result<Traced<S>, PoolFault>, W)
    ensures found { IfOk result.0 (λ t. IsSummaryOf J.plan J.keeps t.outcome.tables t.outcome.journal.items) }
    ensures pace { IfOk result.0 (λ t. t.outcome.pace ≡ pace_in start.entry.grouping.groups start.entry.pace) }
    ensures told { HandsOnFaults (min start.entry.grouping.groups start.entry.pace.workers) result.0 }
    ensures written { IfOk result.0 (λ t. IsWritten J.plan K.taken K.failures t.written (S.taken t.sink) (S.failures t.sink)) }
    ensures exhausted { IfErr result.0 (λ fault. fault ≡ Exhausted → UsesUpNumbers J.plan) }
    ensures full { IfErr result.0 (λ fault. fault ≡ JournalFull → TakesMany J.plan J.keeps) }
    ensures watched { W.becomes watch result.1 }
{
    let mut watch = watch;
    let keeps = start.keeps;
    let (ended, fault) = run_to_trace(rt, alloc, start, gate, trace, &mut watch);
    let (writing, counted) = writer.join(rt);
    let summary = summary_told(alloc, ended, counted, keeps);
    (traced_of(summary, writing, fault), watch)
}

/// Makes the lock of a trace, the end of the channel at which its batches arrive, and the counter of their rows. Only memory can be
/// refused.
fn open_trace<J: NetworkRun>(
    alloc: Global,
    start: &StartOf<'_, J>,
) -> Result<(TraceLock<J>, Receiver<RunBatch<J>>, Counted<J>), AllocError> {
    let (to, from) = bounded(alloc, MOST_BATCHES)?;
    let trace = match TraceLock::new(alloc, start, to) {
        Ok(trace) => trace,
        Err(fault) => {
            drop(from);
            return Err(fault);
        }
    };
    match Counted::none(alloc, start.network) {
        Ok(counted) => Ok((trace, from, counted)),
        Err(fault) => {
            drop(from);
            drop(trace);
            Err(fault)
        }
    }
}

/// The run of `run_traced`, of this network run and this writing of a trace. The watch is given back.
fn traced_named<
    J: NetworkRun + Send + Sync,
    K: TraceRun + Send + Sync,
    S: Sink + Drop + Send,
    G: Gate + Sync,
    T: Threads + Wait + Sync,
    W: Watch + Drop,
>(
    rt: &T,
    alloc: Global,
    start: Start<'_>,
    gate: &G,
    sink: S,
    watch: W,
) -> (Result<Traced<S>, PoolFault>, W)
    requires begins { BeginsRun J.plan J.keeps J.names J.owners start }
    requires taken { S.taken sink ≡ K.taken }
    requires failures { S.failures sink ≡ K.failures }
    ensures found { IfOk result.0 (λ t. IsSummaryOf J.plan J.keeps t.outcome.tables t.outcome.journal.items) }
    ensures pace { IfOk result.0 (λ t. t.outcome.pace ≡ pace_in start.entry.grouping.groups start.entry.pace) }
    ensures told { HandsOnFaults (min start.entry.grouping.groups start.entry.pace.workers) result.0 }
    ensures written { IfOk result.0 (λ t. IsWritten J.plan K.taken K.failures t.written (S.taken t.sink) (S.failures t.sink)) }
    ensures exhausted { IfErr result.0 (λ fault. fault ≡ Exhausted → UsesUpNumbers J.plan) }
    ensures full { IfErr result.0 (λ fault. fault ≡ JournalFull → TakesMany J.plan J.keeps) }
    ensures watched { W.becomes watch result.1 }
{
    let start: StartOf<J> = StartOf::of(start);
    let Ok((trace, batches, counted)) = open_trace(alloc, &start) else {
        drop(start);
        drop(sink);
        return (Err(PoolFault::OutOfMemory), watch);
    };
    let network = start.network;
    let writing: Writing<J, K, S> = Writing::new(alloc, network, sink);
    thread::scope(
        thread::scope_env(),
        rt,
        |scope| -> (Result<Traced<S>, PoolFault>, W)
            requires { network.now ≡ J.plan }
            ensures found { IfOk result.0 (λ t. IsSummaryOf J.plan J.keeps t.outcome.tables t.outcome.journal.items) }
            ensures pace { IfOk result.0 (λ t. t.outcome.pace ≡ pace_in start.entry.grouping.groups start.entry.pace) }
            ensures told { HandsOnFaults (min start.entry.grouping.groups start.entry.pace.workers) result.0 }
            ensures written { IfOk result.0 (λ t. IsWritten J.plan K.taken K.failures t.written (S.taken t.sink) (S.failures t.sink)) }
            ensures exhausted { IfErr result.0 (λ fault. fault ≡ Exhausted → UsesUpNumbers J.plan) }
            ensures full { IfErr result.0 (λ fault. fault ≡ JournalFull → TakesMany J.plan J.keeps) }
            ensures watched { W.becomes watch result.1 }
        {
            match scope.spawn(move || write_batches(rt, network, writing, counted, batches)) {
                Ok(writer) => run_beside(rt, alloc, start, gate, trace, watch, writer),
                Err(_) => {
                    drop(start);
                    drop(trace);
                    (Err(PoolFault::Spawn), watch)
                }
            }
        },
    )
}

/// Simulates a network by workers, as `run_summary` does, and writes the trace to the sink while the run goes on. Segments of it leave the
/// processes in intervals that are the same for all, and a thread of its own counts their rows and writes them in order. No list of all
/// rows is made: the rows of an interval leave their process with its segment, and are dropped once they are counted and written.
///
/// - `whole`: if the writing succeeded, the sink took the trace of the rows of the one-thread run, as `trace_tables::write_trace` writes
///   it.
/// - `beginning`: in any case it took a beginning of that text, and nothing else.
/// - `device`, `kept`, `went_well`: how many of its writes failed: one, if the fault says so, and otherwise none.
/// - `fault`: a segment or a batch is missing or comes twice, or the text was not written. Lack of memory for a segment ends the run.
///
/// `written` reports in any case that a write failed. Otherwise it is the first fault of a batch, after which all is dropped; if there was
/// none, the first of a segment, `Gap` or `Double`; and if there was none either, the outcome of `TraceWriter::finish`. The run itself goes
/// on after any of them.
///
/// Its refusals are those of `run`, and the sink is then dropped, with a beginning of the trace in it. `OutOfMemory` comes also for a
/// segment or a batch, or at the end if memory was refused while rows were counted. `Torn` comes also if rows that left came in no batch,
/// as after a segment that was refused. `Spawn` comes also if the writer's thread could not be started. `watch` is shown GVT, as by
/// `run_summary`.
pub fn run_traced<S: Sink + Drop + Send, G: Gate + Sync, T: Threads + Wait + Sync, W: Watch>(
    rt: &T,
    alloc: Global,
    network: &Network,
    pace: Pace,
    with_steps: bool,
    gate: &G,
    sink: S,
    watch: &mut W,
) -> Result<Traced<S>, PoolFault>
    ensures tables { IfOk result (λ t. (rows : List Row) × AreRowsOf network.now rows × (t.outcome.tables ≡ tables_of network.now rows)) }
    ensures each { IfOk result (λ t. (rows : List Row) → AreRowsOf network.now rows → t.outcome.tables ≡ tables_of network.now rows) }
    ensures journal { IfOk result (λ t. IsJournalAsked network.now with_steps t.outcome.journal.items) }
    ensures pace { IfOk result (λ t. t.outcome.pace ≡ actual_pace (process_count network.now) pace) }
    ensures told { HandsOnFaults (actual_pace (process_count network.now) pace).workers result }
    ensures whole { IfOk result (λ t. OnOk t.written ((rows : List Row) → AreRowsOf network.now rows →
        S.taken t.sink ≡ append_known (S.taken sink) (trace_text network.now rows))) }
    ensures beginning { IfOk result (λ t. (rows : List Row) → AreRowsOf network.now rows →
        IsBeginning (S.taken sink) (S.taken t.sink) (trace_text network.now rows)) }
    ensures device { IfOk result (λ t. IfErr t.written (λ fault. fault ≡ Out Device → S.failures t.sink ≡ S.failures sink + 1)) }
    ensures kept { IfOk result (λ t. IfErr t.written (λ fault. fault ≢ Out Device → S.failures t.sink ≡ S.failures sink)) }
    ensures went_well { IfOk result (λ t. OnOk t.written (S.failures t.sink ≡ S.failures sink)) }
    ensures fault { IfOk result (λ t. IfErr t.written IsFaultOfTrace) }
    ensures exhausted { IfErr result (λ fault. fault ≡ Exhausted → UsesUpNumbers network.now) }
    ensures full { IfErr result (λ fault. fault ≡ JournalFull → TakesMany network.now with_steps) }
    ensures watched { W.becomes watch.old watch.new }
{
    let Ok((grouping, pairs)) = marked_groups(alloc, network, pace.groups) else {
        return Err(PoolFault::OutOfMemory);
    };
    let start = Start {
        network,
        pace: pace.that_goes(),
        keeps: with_steps,
        grouping,
        pairs,
    };
    let (traced, _watch) = traced_named::<Brand, Brand, S, G, T, &mut W>(
        rt, alloc, start, gate, sink, watch,
    );
    traced
}
