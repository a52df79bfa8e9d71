//! The results of a run without its trace: its tables, and its steps if they are wanted. It lists no rows.
ghost use Rattle.std.specs.Prelude.{◌≡◌, ◌⊎◌, List, Err, length, min, IfOk, IfErr, IfNone};
ghost use Rattle.vlink.specs.Letters.{Row};
ghost use Rattle.network.specs.Words.{process_count};
ghost use Rattle.journal.specs.declared.fault.PoolFault.TheVariants.{OutOfMemory, Exhausted, JournalFull, Spawn, Torn};
ghost use Rattle.trace_tables.specs.Tables.{tables_of};
ghost use Rattle.seqsim.specs.Networks.{AreRowsOf};
ghost use Rattle.worker_pool.specs.Outcomes.{CanWantWorkers, HandsOnFaults, TakesMany, UsesUpNumbers};
ghost use Rattle.worker_pool.specs.Paces.{actual_pace, pace_in, pace_of};
ghost use Rattle.worker_pool.specs.Runs.{HaveGoneBy, IsEnded, IsJournalAsked, IsSummaryOf};
ghost use Rattle.worker_pool.specs.Starts.{BeginsRun};

use crate::actual_pace::ActualPace;
use crate::ending::Unlocked;
use crate::grouping::marked_groups;
use crate::leaving::Leaving;
use crate::pace::Pace;
use crate::running::run_to_end;
use crate::start::{Start, StartOf};
use actor_run::Watch;
use journal::{Gate, PoolFault};
use network::Network;
use network_runs::NetworkRun;
use run_rows::Counted;
use std::alloc::{AllocError, Global};
use std::marker::Brand;
use std::sync::{Mutex, Wait};
use std::thread::Threads;
use trace_tables::Tables;
use vlink::Step;

/// The results of a run: the tables of its rows; the steps that were done, in their order, or none if they were not asked for; and the pace
/// at which it went.
#[derive(Drop)]
pub struct Summary {
    pub tables: Tables,
    pub journal: Vec<Step>,
    pub pace: ActualPace,
}

impl<J: NetworkRun> Unlocked<'_, J> {
    /// Returns the tables of an ended run, some of whose rows are already counted, and its steps if they are asked for. `Torn`: rows have
    /// left that were not counted. If memory was refused while rows were counted, that is reported first.
    fn summary(
        &self,
        alloc: Global,
        counted: Counted<J>,
        with_steps: bool,
    ) -> Result<Summary, PoolFault>
        requires ended { IsEnded J.plan J.owners self.now.exchange.steps self.now.groups.items }
        requires keeps { with_steps ≡ J.keeps }
        ensures found { IfOk result (λ s. IsSummaryOf J.plan J.keeps s.tables s.journal.items) }
        ensures pace { IfOk result (λ s. s.pace ≡ pace_of self.now.speed (length self.now.groups.items)) }
        ensures refused { IfNone counted.tables (result ≡ Err OutOfMemory) }
        ensures torn { result ≡ Err Torn → HaveGoneBy counted.own.items counted.end self.now.groups.items → ⊥ }
        ensures faults { IfErr result (λ fault. (fault ≡ OutOfMemory) ⊎ (fault ≡ Torn)) }
    {
        if counted.tables.is_none() {
            drop(counted);
            return Err(PoolFault::OutOfMemory);
        }
        if !self.have_gone_by(counted.own.as_slice(), counted.end) {
            drop(counted);
            return Err(PoolFault::Torn);
        }
        let tables = self.tables(counted)?;
        match self.steps_asked(alloc, with_steps) {
            Ok(journal) => Ok(Summary {
                tables,
                journal,
                pace: self.pace(),
            }),
            Err(fault) => {
                drop(tables);
                Err(PoolFault::from(fault))
            }
        }
    }

    /// Returns the steps of an ended run, or none if they are not asked for. Only memory can be refused.
    fn steps_asked(&self, alloc: Global, with_steps: bool) -> Result<Vec<Step>, AllocError>
        requires ended { IsEnded J.plan J.owners self.now.exchange.steps self.now.groups.items }
        requires keeps { with_steps ≡ J.keeps }
        ensures { IfOk result (λ steps. IsJournalAsked J.plan J.keeps steps.items) }
    {
        if with_steps {
            self.steps(alloc)
        } else {
            Ok(Vec::new(alloc))
        }
    }
}

/// Returns the results of an ended run, some of whose rows are already counted.
pub(crate) fn summary_of<J: NetworkRun>(
    alloc: Global,
    ended: Unlocked<'_, J>,
    counted: Counted<J>,
    with_steps: bool,
) -> Result<Summary, PoolFault>
    requires ended { IsEnded J.plan J.owners ended.exchange.steps ended.groups.items }
    requires keeps { with_steps ≡ J.keeps }
    ensures found { IfOk result (λ s. IsSummaryOf J.plan J.keeps s.tables s.journal.items) }
    ensures pace { IfOk result (λ s. s.pace ≡ pace_of ended.entry.speed (length ended.entry.groups.items)) }
    ensures torn { result ≡ Err Torn → HaveGoneBy counted.own.items counted.end ended.entry.groups.items → ⊥ }
    ensures faults { IfErr result (λ fault. (fault ≡ OutOfMemory) ⊎ (fault ≡ Torn)) }
{
    let found = ended.summary(alloc, counted, with_steps);
    drop(ended);
    found
}

/// The run of `run_summary`, by its type.
fn summary_named<J: NetworkRun + Send + Sync, G: Gate + Sync, T: Threads + Wait + Sync, W: Watch>(
    rt: &T,
    alloc: Global,
    start: Start<'_>,
    gate: &G,
    watch: &mut W,
) -> Result<Summary, PoolFault>
    requires { BeginsRun J.plan J.keeps J.names J.owners start }
    ensures found { IfOk result (λ s. IsSummaryOf J.plan J.keeps s.tables s.journal.items) }
    ensures pace { IfOk result (λ s. s.pace ≡ pace_in start.entry.grouping.groups start.entry.pace) }
    ensures told { HandsOnFaults (min start.entry.grouping.groups start.entry.pace.workers) result }
    ensures exhausted { IfErr result (λ fault. fault ≡ Exhausted → UsesUpNumbers J.plan) }
    ensures full { IfErr result (λ fault. fault ≡ JournalFull → TakesMany J.plan J.keeps) }
    ensures spawn { IfErr result (λ fault. fault ≡ Spawn → CanWantWorkers start.entry.pace.workers (process_count J.plan)) }
    ensures watched { W.becomes watch.old watch.new }
{
    let start: StartOf<J> = StartOf::of(start);
    let keeps = start.keeps;
    let counted = Mutex::new(Counted::each(alloc, start.network, start.grouping.groups)?);
    let leaving = Leaving::Counted(&counted);
    let ended = run_to_end::<J, G, T, W>(rt, alloc, start, gate, &leaving, watch)?;
    summary_of(alloc, ended, counted.into_inner(), keeps)
}

/// Simulates a network by workers, as `run` does, and lists no rows. The steps that were done are listed if they are asked for. The summary
/// states the pace at which the run went: that of its threads, and of the groups that came back from them. Its refusals are those of `run`,
/// and `Torn` if rows left that were not counted. `watch` is shown GVT, at most four times a second, and no
/// count of events.
pub fn run_summary<G: Gate + Sync, T: Threads + Wait + Sync, W: Watch>(
    rt: &T,
    alloc: Global,
    network: &Network,
    pace: Pace,
    with_steps: bool,
    gate: &G,
    watch: &mut W,
) -> Result<Summary, PoolFault>
    ensures tables { IfOk result (λ s. (rows : List Row) × AreRowsOf network.now rows × (s.tables ≡ tables_of network.now rows)) }
    ensures each { IfOk result (λ s. (rows : List Row) → AreRowsOf network.now rows → s.tables ≡ tables_of network.now rows) }
    ensures journal { IfOk result (λ s. IsJournalAsked network.now with_steps s.journal.items) }
    ensures pace { IfOk result (λ s. s.pace ≡ actual_pace (process_count network.now) pace) }
    ensures told { HandsOnFaults (actual_pace (process_count network.now) pace).workers result }
    ensures exhausted { IfErr result (λ fault. fault ≡ Exhausted → UsesUpNumbers network.now) }
    ensures full { IfErr result (λ fault. fault ≡ JournalFull → TakesMany network.now with_steps) }
    ensures spawn { IfErr result (λ fault. fault ≡ Spawn → CanWantWorkers pace.workers (process_count network.now)) }
    ensures watched { W.becomes watch.old watch.new }
{
    let Ok((grouping, pairs)) = marked_groups(alloc, network, pace.groups) else {
        return Err(PoolFault::OutOfMemory);
    };
    let start = Start {
        network,
        pace: pace.that_goes(),
        keeps: with_steps,
        grouping,
        pairs,
    };
    summary_named::<Brand, G, T, W>(rt, alloc, start, gate, watch)
}
