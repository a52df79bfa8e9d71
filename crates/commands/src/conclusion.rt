//! A journal, done on a network, and its summary. All lines are read first, so that the two functions that are called are those whose
//! contracts are the promise.
ghost use Rattle.std.specs.Prelude.{◌≡◌, ◌⊎◌, List, IfOk, IfErr, string_bytes};
ghost use Rattle.vlink.specs.Letters.{Row};
ghost use Rattle.virtual_time.specs.declared.step.Step.{Step};
ghost use Rattle.virtual_time.specs.Law.{IsFinished};
ghost use Rattle.nodes.specs.Words.{simulation_of};
ghost use Rattle.trace_tables.specs.Tables.{tables_of};
ghost use Rattle.seqsim.specs.Networks.{AreRowsOf};
ghost use Rattle.seqsim.specs.Committed.{after};
ghost use Rattle.timewarp.specs.Networks.{IsAfter};
ghost use Rattle.timewarp.specs.Replayed.{IsReplayed};
ghost use Rattle.commands.specs.declared.fault.Fault.TheVariants.{OutOfMemory, Exhausted};
ghost use Rattle.commands.specs.Replaying.{counts_text, finish_text, summary_text, IsSummary, AreCommittedTables, TellsOfSteps, TellsOfJournal, IsExhaustedIn, IsFaultOfJournal};

use crate::fault::Fault;
use crate::journal_steps::{do_steps, steps_of};
use network::Network;
use std::alloc::{AllocError, Global};
use timewarp::{Replay, World};
use trace_tables::Tables;
use vlink::Step;

/// The result of a journal that was done on a network.
#[derive(Drop)]
pub struct Conclusion {
    /// The world after its steps.
    pub world: World,
    /// The tables of the committed events.
    pub tables: Tables,
    /// The line that states how many steps were done, were not enabled and were refused, GVT in ns, and whether the run is finished.
    pub line: String,
}

/// Returns whether a run is finished, as the end of a line.
fn finish_of(is_finished: bool) -> &'static str
    ensures { result.now ≡ finish_text is_finished }
{
    if is_finished {
        "finished\n"
    } else {
        "unfinished\n"
    }
}

/// Makes the beginning of a line: how many steps were done, were not enabled and were refused, and GVT in ns.
fn counts_of(
    alloc: Global,
    did: u64,
    not_enabled: u64,
    refused: u64,
    gvt: u64,
) -> Result<String, AllocError>
    ensures { IfOk result (λ text. string_bytes text ≡ counts_text did not_enabled refused gvt) }
{
    format!(in alloc;
        "replay: {did} did, {not_enabled} not enabled, {refused} refused, gvt {gvt}, "
    )
}

/// Makes the line of a replay.
fn line_of(
    alloc: Global,
    did: u64,
    not_enabled: u64,
    refused: u64,
    gvt: u64,
    is_finished: bool,
) -> Result<String, AllocError>
    ensures { IfOk result (λ line. string_bytes line ≡ summary_text did not_enabled refused gvt is_finished) }
{
    let mut line = counts_of(alloc, did, not_enabled, refused, gvt)?;
    line.push_str(finish_of(is_finished))?;
    Ok(line)
}

/// Makes the line that states the results of a replay.
fn summary_of(alloc: Global, found: &Replay) -> Result<String, AllocError>
    ensures { IfOk result (λ line. (steps : List Step) → IsReplayed found.now steps → IsSummary found.now.world.plan steps (string_bytes line)) }
{
    let gvt = found.world.gvt().ns();
    let is_finished = found.world.is_finished();
    let line = line_of(
        alloc,
        found.did,
        found.not_enabled,
        found.refused,
        gvt,
        is_finished,
    )?;
    Ok(line)
}

/// Makes the tables of what is committed.
#[tactic(auto, using(crate::proofs::Conclusions::committed))]
fn committed_tables(alloc: Global, world: &World) -> Result<Tables, AllocError>
    ensures committed { IfOk result (λ tables. (steps : List Step) → IsAfter world.now steps → AreCommittedTables world.now.plan steps tables) }
    ensures whole { IfOk result (λ tables. (steps : List Step) → IsAfter world.now steps →
        IsFinished (simulation_of world.now.plan) (after world.now.plan steps) → (rows : List Row) → AreRowsOf world.now.plan rows →
        tables ≡ tables_of world.now.plan rows) }
{
    match world.tables(alloc) {
        Ok(tables) => Ok(tables),
        Err(_) => Err(AllocError),
    }
}

/// Makes the line and the tables of a replay.
fn told_of(alloc: Global, found: &Replay) -> Result<(String, Tables), AllocError>
    ensures line { IfOk result (λ told. (steps : List Step) → IsReplayed found.now steps → IsSummary found.now.world.plan steps (string_bytes told.0)) }
    ensures committed { IfOk result (λ told. (steps : List Step) → IsAfter found.now.world steps → AreCommittedTables found.now.world.plan steps told.1) }
    ensures whole { IfOk result (λ told. (steps : List Step) → IsAfter found.now.world steps →
        IsFinished (simulation_of found.now.world.plan) (after found.now.world.plan steps) → (rows : List Row) → AreRowsOf found.now.world.plan rows →
        told.1 ≡ tables_of found.now.world.plan rows) }
{
    let line = summary_of(alloc, found)?;
    let tables = committed_tables(alloc, &found.world)?;
    Ok((line, tables))
}

/// Makes the conclusion of a replay.
fn conclusion_after(alloc: Global, found: Replay) -> Result<Conclusion, AllocError>
    ensures told { IfOk result (λ conclusion. (steps : List Step) → IsReplayed found steps → TellsOfSteps found.world.plan steps conclusion) }
    ensures network { IfOk result (λ conclusion. conclusion.world.plan ≡ found.world.plan) }
{
    match told_of(alloc, &found) {
        Ok((line, tables)) => Ok(Conclusion {
            world: found.world,
            tables,
            line,
        }),
        Err(error) => {
            drop(found);
            Err(error)
        }
    }
}

/// Does these steps on a network, and returns their conclusion.
#[tactic(auto, using(crate::proofs::Conclusions::told_there))]
fn conclusion_by(
    alloc: Global,
    network: Network,
    steps: &[Step],
) -> Result<Conclusion, Fault<'static>>
    ensures told { IfOk result (TellsOfSteps network steps.now) }
    ensures network { IfOk result (λ conclusion. conclusion.world.plan ≡ network) }
    ensures fault { IfErr result (λ fault. (fault ≡ OutOfMemory) ⊎ ((fault ≡ Exhausted) × IsExhaustedIn network steps.now)) }
{
    let found = do_steps(alloc, network, steps)?;
    Ok(conclusion_after(alloc, found)?)
}

/// Does the journal with this text on a network, and returns its conclusion. All its lines are read before its first step is done.
///
/// `JournalFull` comes exactly if the text has more than 67108864 lines, and `JournalLine` gives the first line, from 1, that is not the
/// text of a step. `OutOfMemory` comes only if memory was refused, and `Exhausted` only at `Run` of a process that has a next message, and
/// not enough numbers left for what one event can send.
pub fn conclusion_of(
    alloc: Global,
    network: Network,
    text: &[u8],
) -> Result<Conclusion, Fault<'static>>
    ensures told { IfOk result (TellsOfJournal network text.now) }
    ensures network { IfOk result (λ conclusion. conclusion.world.plan ≡ network) }
    ensures fault { IfErr result (IsFaultOfJournal network text.now) }
{
    match steps_of(alloc, text) {
        Ok(steps) => conclusion_by(alloc, network, &steps),
        Err(fault) => {
            drop(network);
            Err(fault)
        }
    }
}
