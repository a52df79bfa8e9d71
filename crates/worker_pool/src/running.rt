//! The run of a network by workers.
ghost use Rattle.std.specs.Prelude.{◌≡◌, ◌≢◌, ◌<◌, true, [], length, min, IfOk, IfErr};
ghost use Rattle.network.specs.Words.{process_count};
ghost use Rattle.journal.specs.declared.fault.PoolFault.TheVariants.{Exhausted, JournalFull, Spawn, Torn};
ghost use Rattle.trace_tables.specs.Tables.{tables_of};
ghost use Rattle.seqsim.specs.Networks.{AreRowsOf};
ghost use Rattle.worker_pool.specs.Outcomes.{CanWantWorkers, HandsOnFaults, TakesMany, UsesUpNumbers};
ghost use Rattle.worker_pool.specs.Paces.{pace_in, pace_of};
ghost use Rattle.worker_pool.specs.Runs.{IsEnded, IsJournalOf, HaveGoneBy};
ghost use Rattle.worker_pool.specs.Starts.{BeginsRun};

use crate::ending::Unlocked;
use crate::group_opening::open_groups;
use crate::grouping::marked_groups;
use crate::leaving::Leaving;
use crate::pace::Pace;
use crate::start::{Start, StartOf};
use crate::tasks::{CommonOf, NetworkTasks};
use crate::workers::groups_worked;
use actor_run::{Unwatched, Watch};
use group_turns::RunFault;
use journal::{Gate, PoolFault};
use network::Network;
use network_runs::NetworkRun;
use std::alloc::{AllocError, Global};
use std::marker::Brand;
use std::sync::{Mutex, Wait};
use std::thread::Threads;
use trace_tables::Tables;
use turns::{Apart, Common};
use vlink::{Row, Step, Time};

/// The results of a run: a row for each frame that was delivered or dropped, in message order, and their tables; and the steps that were
/// done, in their order.
#[derive(Drop)]
pub struct Outcome {
    pub tables: Tables,
    pub rows: Vec<Row>,
    pub journal: Vec<Step>,
}

/// Runs a network by workers until it is ended. Rows that can no longer change leave the groups, or stay. The watch is shown GVT while the
/// run goes on.
pub(crate) fn run_to_end<
    'n,
    J: NetworkRun + Send + Sync,
    G: Gate + Sync,
    T: Threads + Wait + Sync,
    W: Watch,
>(
    rt: &T,
    alloc: Global,
    start: StartOf<'n, J>,
    gate: &G,
    leaving: &Leaving<'_, J>,
    watch: &mut W,
) -> Result<Unlocked<'n, J>, RunFault<J>>
    ensures ended { IfOk result (λ r. IsEnded J.plan J.owners r.exchange.steps r.groups.items) }
    ensures pace { IfOk result (λ r. pace_of r.speed (length r.groups.items) ≡ pace_in start.entry.grouping.groups start.entry.pace) }
    ensures told { HandsOnFaults (min start.entry.grouping.groups start.entry.pace.workers) result }
    ensures spawn { IfErr result (λ fault. fault ≡ Spawn → CanWantWorkers start.entry.pace.workers (process_count J.plan)) }
    ensures watched { W.becomes watch.old watch.new }
{
    let Ok(common) = opened(rt, alloc, start, gate, leaving) else {
        return Err(RunFault::other(PoolFault::OutOfMemory));
    };
    let unlocked = groups_worked(rt, alloc, common, watch)?;
    to_end(rt, unlocked, leaving, gate)
}

/// Makes what the workers of a run share at the start. Only memory can be refused.
fn opened<'s, 'n, J: NetworkRun, G: Gate, T: Wait>(
    rt: &'s T,
    alloc: Global,
    start: StartOf<'n, J>,
    gate: &'s G,
    leaving: &'s Leaving<'s, J>,
) -> Result<CommonOf<'s, 'n, J, G, T>, AllocError>
    ensures groups { IfOk result (λ common. common.groups ≡ length J.names) }
    ensures workers { IfOk result (λ common. common.workers ≡ min start.entry.grouping.groups start.entry.pace.workers) }
    ensures turn { IfOk result (λ common. common.turn ≡ start.entry.pace.turn) }
    ensures window { IfOk result (λ common. common.window_ns ≡ start.entry.pace.window_ns) }
    ensures wanted { IfOk result (λ common. 0 < common.workers → CanWantWorkers start.entry.pace.workers (process_count J.plan)) }
{
    let network = start.network;
    let pace = start.pace;
    let (exchange, groups) = open_groups(alloc, start)?;
    let tasks = NetworkTasks {
        rt,
        gate,
        network,
        exchange: Mutex::new(Apart::new(exchange)),
        leaving,
    };
    Common::of(
        alloc,
        groups,
        network.until(),
        pace.workers,
        pace.turn,
        pace.window_ns,
        tasks,
    )
}

/// Lets one thread, which holds everything, give turns until the run is ended.
fn to_end<'n, J: NetworkRun, G: Gate, T: Wait>(
    rt: &T,
    unlocked: Unlocked<'n, J>,
    leaving: &Leaving<'_, J>,
    gate: &G,
) -> Result<Unlocked<'n, J>, RunFault<J>>
    requires { length unlocked.groups.items ≡ length J.names }
    ensures ended { IfOk result (λ r. IsEnded J.plan J.owners r.exchange.steps r.groups.items) }
    ensures pace { IfOk result (λ r. pace_of r.speed (length r.groups.items) ≡ pace_of unlocked.entry.speed (length J.names)) }
    ensures no_spawn { IfErr result (λ fault. fault ≢ Spawn) }
{
    let mut unlocked = unlocked;
    match unlocked.end(rt, leaving, gate) {
        Ok(()) => Ok(unlocked),
        Err(fault) => {
            drop(unlocked);
            Err(fault)
        }
    }
}

impl<J: NetworkRun> Unlocked<'_, J> {
    /// Returns the results of an ended run whose rows have all stayed. Only memory can be refused.
    fn outcome(&self, alloc: Global) -> Result<Outcome, AllocError>
        requires keeps { J.keeps ≡ true }
        requires ended { IsEnded J.plan J.owners self.now.exchange.steps self.now.groups.items }
        requires kept { HaveGoneBy [] 0 self.now.groups.items }
        ensures rows { IfOk result (λ o. AreRowsOf J.plan o.rows.items) }
        ensures tables { IfOk result (λ o. o.tables ≡ tables_of J.plan o.rows.items) }
        ensures finished { IfOk result (λ o. IsJournalOf J.plan o.journal.items) }
    {
        let rows = self.rows(alloc)?;
        let tables = Tables::of(alloc, self.network, &rows)?;
        let journal = self.steps(alloc)?;
        Ok(Outcome {
            tables,
            rows,
            journal,
        })
    }
}

/// Returns the results of an ended run whose rows have all stayed. Only memory can be refused.
fn outcome_of<J: NetworkRun>(alloc: Global, ended: Unlocked<'_, J>) -> Result<Outcome, AllocError>
    requires keeps { J.keeps ≡ true }
    requires ended { IsEnded J.plan J.owners ended.exchange.steps ended.groups.items }
    requires kept { HaveGoneBy [] 0 ended.groups.items }
    ensures rows { IfOk result (λ o. AreRowsOf J.plan o.rows.items) }
    ensures tables { IfOk result (λ o. o.tables ≡ tables_of J.plan o.rows.items) }
    ensures finished { IfOk result (λ o. IsJournalOf J.plan o.journal.items) }
{
    let found = ended.outcome(alloc);
    drop(ended);
    found
}

/// The run of `run`, by its type.
fn run_named<J: NetworkRun + Send + Sync, G: Gate + Sync, T: Threads + Wait + Sync>(
    rt: &T,
    alloc: Global,
    start: Start<'_>,
    gate: &G,
) -> Result<Outcome, PoolFault>
    requires keeps { J.keeps ≡ true }
    requires begins { BeginsRun J.plan J.keeps J.names J.owners start }
    ensures rows { IfOk result (λ o. AreRowsOf J.plan o.rows.items) }
    ensures tables { IfOk result (λ o. o.tables ≡ tables_of J.plan o.rows.items) }
    ensures finished { IfOk result (λ o. IsJournalOf J.plan o.journal.items) }
    ensures exhausted { IfErr result (λ fault. fault ≡ Exhausted → UsesUpNumbers J.plan) }
    ensures full { IfErr result (λ fault. fault ≡ JournalFull → TakesMany J.plan J.keeps) }
    ensures no_torn { IfErr result (λ fault. fault ≢ Torn) }
    ensures spawn { IfErr result (λ fault. fault ≡ Spawn → CanWantWorkers start.entry.pace.workers (process_count J.plan)) }
{
    let start: StartOf<J> = StartOf::of(start);
    let watch = &mut Unwatched;
    let ended = run_to_end::<J, G, T, Unwatched>(rt, alloc, start, gate, &Leaving::Stay, watch)?;
    // No step of this run lets a row go, and no type states it. If one had left, want of memory would be reported.
    if !ended.have_gone_by(&[], Time::default()) {
        drop(ended);
        return Err(PoolFault::OutOfMemory);
    }
    Ok(outcome_of(alloc, ended)?)
}

/// Simulates a network by workers that run ahead and roll back, as the pace states. It calls the gate for each message that is handled.
///
/// Rows and tables are those of the one-thread run, as `seqsim::run` returns them, whatever the threads did, and the world after the
/// journal's steps is finished. Once its workers are joined, the loop of its end does finitely many rounds. Not promised is how long the
/// run waits for its threads, or that they end.
///
/// `OutOfMemory`: memory was refused. `Exhausted`: a process did not have enough numbers left for what its next message can send, so that
/// some run of the network uses up numbers. `JournalFull`: the network can take more than 2^26 steps. `Spawn`: a worker could not be started, so
/// it comes only if there are workers and a process. `Torn` does not come. One worker's refusal ends the others at their next turn; of
/// several faults the one with the least number is returned. Of a run that is refused nothing is left.
pub fn run<G: Gate + Sync, T: Threads + Wait + Sync>(
    rt: &T,
    alloc: Global,
    network: &Network,
    pace: Pace,
    gate: &G,
) -> Result<Outcome, PoolFault>
    ensures rows { IfOk result (λ o. AreRowsOf network.now o.rows.items) }
    ensures tables { IfOk result (λ o. o.tables ≡ tables_of network.now o.rows.items) }
    ensures finished { IfOk result (λ o. IsJournalOf network.now o.journal.items) }
    ensures exhausted { IfErr result (λ fault. fault ≡ Exhausted → UsesUpNumbers network.now) }
    ensures full { IfErr result (λ fault. fault ≡ JournalFull → TakesMany network.now true) }
    ensures no_torn { IfErr result (λ fault. fault ≢ Torn) }
    ensures spawn { IfErr result (λ fault. fault ≡ Spawn → CanWantWorkers pace.workers (process_count network.now)) }
{
    let Ok((grouping, pairs)) = marked_groups(alloc, network, pace.groups) else {
        return Err(PoolFault::OutOfMemory);
    };
    let start = Start {
        network,
        pace: pace.that_goes(),
        keeps: true,
        grouping,
        pairs,
    };
    run_named::<Brand, G, T>(rt, alloc, start, gate)
}
