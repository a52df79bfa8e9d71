//! The journal in a text: its steps, read and then done on a network.
ghost use Rattle.std.specs.Prelude.{◌≡◌, ◌⊎◌, IfOk, IfErr};
ghost use Rattle.network.specs.Words.{Plan};
ghost use Rattle.timewarp.specs.Replayed.{IsReplayed};
ghost use Rattle.commands.specs.declared.fault.Fault.TheVariants.{OutOfMemory, Exhausted};
ghost use Rattle.commands.specs.Replaying.{fault_of_lines, IsJournal, IsExhaustedIn, IsFaultOfJournal};

use crate::fault::Fault;
use journal_text::{LinesFault, read_steps};
use network::Network;
use std::alloc::Global;
use timewarp::{Replay, StepFault, replay};
use vlink::Step;

/// The greatest number of lines of a journal.
pub const MOST_LINES: u64 = 67_108_864;

/// Why a text was not read as a journal.
fn fault_of(fault: LinesFault) -> Fault<'static>
    ensures { result ≡ fault_of_lines fault }
{
    match fault {
        LinesFault::TooMany => Fault::JournalFull,
        LinesFault::BadLine(line) => Fault::JournalLine(line),
        LinesFault::OutOfMemory => Fault::OutOfMemory,
    }
}

/// Reads the steps of the journal with this text.
#[tactic(auto, using(crate::proofs::Conclusions::few_lines, crate::proofs::Conclusions::lines_fault))]
pub fn steps_of(alloc: Global, text: &[u8]) -> Result<Vec<Step>, Fault<'static>>
    ensures steps { IfOk result (λ steps. IsJournal text.now steps.items) }
    ensures fault { (plan : Plan) → IfErr result (IsFaultOfJournal plan text.now) }
{
    match read_steps(alloc, text, MOST_LINES) {
        Ok(steps) => Ok(steps),
        Err(fault) => Err(fault_of(fault)),
    }
}

/// Does these steps on a network.
#[tactic(auto, using(crate::proofs::Conclusions::replayed))]
pub fn do_steps(alloc: Global, network: Network, steps: &[Step]) -> Result<Replay, Fault<'static>>
    ensures replayed { IfOk result (λ found. IsReplayed found steps.now) }
    ensures network { IfOk result (λ found. found.world.plan ≡ network) }
    ensures fault { IfErr result (λ fault. (fault ≡ OutOfMemory) ⊎ ((fault ≡ Exhausted) × IsExhaustedIn network steps.now)) }
{
    match replay(alloc, network, steps) {
        Ok(found) => Ok(found),
        Err(StepFault::OutOfMemory) => Err(Fault::OutOfMemory),
        Err(StepFault::Exhausted) => Err(Fault::Exhausted),
        Err(StepFault::NoProcess) => unreachable!(),
    }
}
