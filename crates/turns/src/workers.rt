//! Threads that give turns to groups.
ghost use Rattle.std.specs.Prelude.{◌≡◌, ◌+◌, ◌<◌, ◌⊎◌, IfErr, IfOk, OnOk, Some, length, slice_get};
ghost use Rattle.turn_words.specs.Outcomes.{IsToldByWorkers, IsToldOf};

use crate::LOOK_US;
use crate::agenda::{Agenda, Stealers, agendas_of};
use crate::common::Common;
use crate::signals::Signals;
use crate::standstill::Standstill;
use crate::tasks::Tasks;
use crate::worker::give_turns;
use actor_run::Watch;
use std::alloc::{AllocError, Global};
use std::sync::Wait;
use std::thread;
use std::thread::{JoinHandle, Scope, Threads};
use turn_words::{Refusal, TurnRun, add_outcome, least_fault};
use vlink::Time;

/// Starts the workers, and joins all of them. If there is no group, or no worker is asked for, it starts none, and reports no fault.
///
/// A refusal to one worker ends the others at their next turn. All of them are joined, and the least fault of what they ended with, and of
/// the start, is returned. While they run, the calling thread shows the watch GVT; the watch is given back.
pub fn work_all<
    G: Drop + Send,
    F: Refusal + Send,
    R: TurnRun + Send + Sync,
    K: Tasks<G, Fault = F, Run = R> + Sync,
    T: Threads + Wait + Sync,
    W: Watch + Drop,
>(rt: &T, alloc: Global, common: &Common<G, K>, watch: W) -> (Result<(), F>, W)
    ensures some { IfErr result.0 (λ fault. 0 < common.now.workers) }
    ensures told { IsToldByWorkers F.rank F.is_memory F.is_unstarted common.now.workers result.0 }
    ensures watched { W.becomes watch result.1 }
{
    if common.workers == 0 {
        return (Ok(()), watch);
    }
    let Ok((agendas, stealers)) = agendas_of(alloc, common) else {
        return (Err(F::memory()), watch);
    };
    start_all(rt, alloc, common, &stealers, agendas, watch)
}

/// Starts a worker for each of these agendas, and joins all of them.
fn start_all<
    's,
    G: Drop + Send,
    F: Refusal + Send,
    R: TurnRun + Send + Sync,
    K: Tasks<G, Fault = F, Run = R> + Sync,
    T: Threads + Wait + Sync,
    W: Watch + Drop,
>(
    rt: &'s T,
    alloc: Global,
    common: &'s Common<G, K>,
    stealers: &'s Stealers<R>,
    agendas: Vec<Agenda<R>>,
    watch: W,
) -> (Result<(), F>, W)
    ensures told { IsToldByWorkers F.rank F.is_memory F.is_unstarted (length agendas.items) result.0 }
    ensures watched { W.becomes watch result.1 }
{
    thread::scope(
        thread::scope_env(),
        rt,
        |scope| -> (Result<(), F>, W)
            ensures told { IsToldByWorkers F.rank F.is_memory F.is_unstarted (length agendas.items) result.0 }
            ensures watched { W.becomes watch result.1 }
        {
            let mut handles = Vec::new(alloc);
            let start = start_each(scope, rt, alloc, common, stealers, agendas, &mut handles);
            watch_all(rt, alloc, &common.signals, start, handles, watch)
        },
    )
}

/// Starts a worker for each of these agendas, as long as none is refused, and lists their handles.
fn start_each<
    's,
    E: 's,
    G: Drop + Send,
    F: Refusal + Send + 's,
    R: TurnRun + Send + Sync,
    K: Tasks<G, Fault = F, Run = R> + Sync,
    T: Threads + Wait + Sync,
>(
    scope: &Scope<'s, E>,
    rt: &'s T,
    alloc: Global,
    common: &'s Common<G, K>,
    stealers: &'s Stealers<R>,
    agendas: Vec<Agenda<R>>,
    handles: &mut Vec<JoinHandle<Result<(), F>>>,
) -> Result<(), F>
    ensures why { IfErr result (λ fault. F.is_memory fault ⊎ F.is_unstarted fault) }
    ensures all { OnOk result (length handles.new.items ≡ length handles.old.items + length agendas.items) }
{
    for agenda in agendas {
        if handles.reserve(1).is_err() {
            return Err(F::memory());
        }
        handles.push_reserved(start_one(scope, rt, alloc, common, stealers, agenda)?);
    }
    Ok(())
}

/// Starts a worker.
fn start_one<
    's,
    E: 's,
    G: Drop + Send,
    F: Refusal + Send + 's,
    R: TurnRun + Send + Sync,
    K: Tasks<G, Fault = F, Run = R> + Sync,
    T: Threads + Wait + Sync,
>(
    scope: &Scope<'s, E>,
    rt: &'s T,
    alloc: Global,
    common: &'s Common<G, K>,
    stealers: &'s Stealers<R>,
    agenda: Agenda<R>,
) -> Result<JoinHandle<Result<(), F>>, F>
    ensures unstarted { IfErr result F.is_unstarted }
{
    match scope.spawn(move || give_turns(rt, alloc, common, stealers, agenda)) {
        Ok(handle) => Ok(handle),
        Err(_) => Err(F::unstarted()),
    }
}

/// Shows the watch GVT until the run ends. If the start was refused, the workers must end, and those that rest are woken. They are joined.
/// Returns the least fault of what they ended with, and of the start.
fn watch_all<F: Refusal, T: Threads + Wait, W: Watch + Drop>(
    rt: &T,
    alloc: Global,
    signals: &Signals,
    start: Result<(), F>,
    handles: Vec<JoinHandle<Result<(), F>>>,
    watch: W,
) -> (Result<(), F>, W)
    ensures told { IsToldOf F.rank F.is_memory start (length handles.items) result.0 }
    ensures watched { W.becomes watch result.1 }
{
    let mut watch = watch;
    if start.is_ok() {
        show_gvt(rt, signals, &mut watch);
    } else {
        signals.moments.stop();
        signals.end();
    }
    (join_all(rt, alloc, start, handles), watch)
}

/// The watch is shown GVT once in `LOOK_US`, until the run ends. If it stands still, the workers end at their next turn, without a fault. One thread
/// finishes the run then, by a loop that does finitely many rounds (`end` of `group_end`).
///
/// A thread that the system has stopped may have the lock of the exchange; then the other workers wait for it too. The calling thread
/// cannot take the lock from it, and joins all of them: it waits until that thread goes on.
fn show_gvt<T: Wait, W: Watch>(rt: &T, signals: &Signals, watch: &mut W)
    ensures watched { W.becomes watch.old watch.new }
{
    let mut standstill = Standstill::none();
    for _ in rt.forever() {
        signals.watch(rt, LOOK_US);
        if signals.is_ended() {
            return;
        }
        let gvt_ns = signals.moments.gvt_ns();
        if let Some(moment) = Time::new(gvt_ns) {
            watch.look(moment, 0);
        }
        if standstill.look(gvt_ns) {
            signals.moments.stop();
            signals.end();
            return;
        }
    }
}

/// Joins the threads, and lists the outcome of the start and then the outcome of each thread, in their order. Only memory can be refused.
#[tactic(auto, using(crate::proofs::FirstOutcome::first_stays))]
fn outcomes_of<F: Refusal, T: Threads + Wait>(
    rt: &T,
    alloc: Global,
    start: Result<(), F>,
    handles: Vec<JoinHandle<Result<(), F>>>,
) -> Result<Vec<Result<(), F>>, AllocError>
    ensures count { IfOk result (λ outcomes. length outcomes.items ≡ length handles.items + 1) }
    ensures first { IfOk result (λ outcomes. slice_get outcomes.items 0 ≡ Some start) }
{
    let mut outcomes = Vec::with_capacity(alloc, handles.len().saturating_add(1))?;
    add_outcome(&mut outcomes, start)?;
    for handle in handles {
        add_outcome(&mut outcomes, handle.join(rt))?;
    }
    Ok(outcomes)
}

/// Joins the threads. Returns the least fault of what they ended with, and of the start.
fn join_all<F: Refusal, T: Threads + Wait>(
    rt: &T,
    alloc: Global,
    start: Result<(), F>,
    handles: Vec<JoinHandle<Result<(), F>>>,
) -> Result<(), F>
    ensures { IsToldOf F.rank F.is_memory start (length handles.items) result }
{
    match outcomes_of(rt, alloc, start, handles) {
        Ok(outcomes) => least_fault(outcomes),
        Err(_) => Err(F::memory()),
    }
}
