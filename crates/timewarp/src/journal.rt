//! Journals: does all their steps in order, and states what holds then.
ghost use Rattle.std.specs.Prelude.{◌≡◌, ◌≢◌, ◌≤◌, ◌+◌, ℕ, [], map, take, true, Err, IfOk, OnOk, slice_get, Some, length};
ghost use Rattle.vlink.specs.declared.message.Message.{Message};
ghost use Rattle.virtual_time.specs.declared.step.Step.{Step};
ghost use Rattle.virtual_time.specs.Law.{earlier, start, is_enabled, Safe, history, CountLaw, IsFinished, IsWhole};
ghost use Rattle.nodes.specs.Words.{simulation_of};
ghost use Rattle.actor_world.specs.declared.fault.StepFault.TheVariants.{NoProcess, OutOfMemory, Exhausted};
ghost use Rattle.actor_world.specs.Worlds.{IsExhausted};
ghost use Rattle.seqsim.specs.Committed.{after};
ghost use Rattle.timewarp.specs.Networks.{IsAfter};
ghost use Rattle.timewarp.specs.Replayed.{IsReplayed, StandsBefore};
ghost use Rattle.timewarp.specs.Replaying.{did, not_enabled, refused};

use crate::laws::world_law;
use crate::replaying::Replay;
use actor_world::StepFault;
use network::Network;
use std::alloc::Global;
use vlink::Step;

/// Does all these steps in their order, from a replay that has done none yet, and counts them. A refusal comes at a step that is not done,
/// and leaves the replay as it stood before that step: `Exhausted` if numbers are lacking there, and `OutOfMemory` if they are not.
fn do_all(replay: &mut Replay, steps: &[Step]) -> Result<(), StepFault>
    requires none { IsReplayed replay.old [] }
    requires totals { replay.old.did + replay.old.not_enabled + replay.old.refused ≡ 0 }
    ensures replayed { OnOk result (IsReplayed replay.new steps.now) }
    ensures network { replay.new.world.plan ≡ replay.old.world.plan }
    ensures all { OnOk result (replay.new.did + replay.new.not_enabled + replay.new.refused ≡ length steps.now) }
    ensures known { result ≢ Err NoProcess }
    ensures exhausted { result ≡ Err Exhausted → (n : ℕ) × (x : Step) × StandsBefore replay.new steps.now n x ×
        IsExhausted (simulation_of replay.old.world.plan) x (after replay.old.world.plan (take n steps.now)) }
    ensures memory { result ≡ Err OutOfMemory → (n : ℕ) × (x : Step) × StandsBefore replay.new steps.now n x ×
        (is_enabled (simulation_of replay.old.world.plan) x (after replay.old.world.plan (take n steps.now)) ≡ true) ×
        ¬ (IsExhausted (simulation_of replay.old.world.plan) x (after replay.old.world.plan (take n steps.now))) }
    ensures numbered { OnOk result ((n : ℕ) (x : Step) → slice_get steps.now n ≡ Some x →
        ¬ (IsExhausted (simulation_of replay.old.world.plan) x (after replay.old.world.plan (take n steps.now)))) }
{
    for step in steps {
        replay.do_step(*step)?;
    }
    Ok(())
}

/// Does all steps of a journal on a network, in their order, and counts them. A step that is not enabled, or that names a process that does
/// not exist, is counted and changes nothing. The first other refusal ends the replay: `OutOfMemory` comes only if memory was refused, and
/// `Exhausted` only at `Run` of a process that has a next message, and not enough numbers left for what one event can send.
///
/// Whatever the steps are, and in whatever order, this holds after each beginning of them (clauses `safe` to `balances`). Undoing the
/// events of a process that are not committed, the newest first, gives its state in the one-thread run after just its committed events,
/// which are the first ones there. Its events below GVT are those of the one-thread run, and are never undone. GVT never falls. Messages
/// and antimessages balance. A run that is finished has the events and the rows of the whole one-thread run.
pub fn replay(alloc: Global, network: Network, steps: &[Step]) -> Result<Replay, StepFault>
    ensures network { IfOk result (λ replay. replay.world.plan ≡ network) }
    ensures after { IfOk result (λ replay. IsAfter replay.world steps.now) }
    ensures did { IfOk result (λ replay. replay.did ≡ did (simulation_of network) steps.now (start (simulation_of network))) }
    ensures not_enabled { IfOk result (λ replay. replay.not_enabled ≡ not_enabled (simulation_of network) steps.now (start (simulation_of network))) }
    ensures refused { IfOk result (λ replay. replay.refused ≡ refused (simulation_of network) steps.now) }
    ensures all { IfOk result (λ replay. replay.did + replay.not_enabled + replay.refused ≡ length steps.now) }
    ensures safe { (n : ℕ) → Safe (simulation_of network) (after network (take n steps.now)) }
    ensures rises { (n m : ℕ) → n ≤ m → (after network (take n steps.now)).gvt ≤ (after network (take m steps.now)).gvt }
    ensures never_undone { (n m : ℕ) → n ≤ m → (p : ℕ) →
        earlier (simulation_of network).rules.order (after network (take n steps.now)).gvt
        (history (simulation_of network) (after network (take m steps.now)) p)
        ≡ earlier (simulation_of network).rules.order (after network (take n steps.now)).gvt
        (history (simulation_of network) (after network (take n steps.now)) p) }
    ensures whole { (n : ℕ) → IsFinished (simulation_of network) (after network (take n steps.now)) →
        IsWhole (simulation_of network) (after network (take n steps.now)) }
    ensures balances { (n : ℕ) (m : Message) → CountLaw (simulation_of network) (after network (take n steps.now)) m }
    ensures known { result ≢ Err NoProcess }
    ensures exhausted { result ≡ Err Exhausted → (n : ℕ) × (x : Step) × (slice_get steps.now n ≡ Some x) ×
        IsExhausted (simulation_of network) x (after network (take n steps.now)) }
    ensures numbered { OnOk result ((n : ℕ) (x : Step) → slice_get steps.now n ≡ Some x →
        ¬ (IsExhausted (simulation_of network) x (after network (take n steps.now)))) }
{
    world_law(&network);
    let mut replay = Replay::new(alloc, network)?;
    do_all(&mut replay, steps)?;
    Ok(replay)
}
