//! The results of a replay, step by step.
ghost use Rattle.std.specs.Prelude.{◌≡◌, ◌≢◌, ◌↔◌, ◌<◌, ◌≤◌, ◌+◌, ◌^◌, ℕ, true, List, ◌∷◌, ◌++◌, [], map, Err, IsOk, OnOk, OnErr, IfOk, IfErr};
ghost use Rattle.vlink.specs.declared.message.Message.{Message};
ghost use Rattle.virtual_time.specs.declared.step.Step.{Step};
ghost use Rattle.virtual_time.specs.declared.step.Step.TheVariants.{Gvt};
ghost use Rattle.virtual_time.specs.Law.{earlier, is_enabled, Safe, history, CountLaw, IsFinished, IsWhole};
ghost use Rattle.nodes.specs.Words.{simulation_of};
ghost use Rattle.actor_world.specs.declared.fault.StepFault.TheVariants.{NoProcess, OutOfMemory, Exhausted};
ghost use Rattle.actor_world.specs.Worlds.{IsExhausted};
ghost use Rattle.seqsim.specs.Committed.{after};
ghost use Rattle.timewarp.specs.Replayed.{IsReplayed};

use crate::laws::world_law;
use crate::world::World;
use actor_world::StepFault;
use network::Network;
use std::alloc::Global;
use vlink::Step;

/// The results of a replay: the world after the steps, and how many steps were done, were not enabled, and named a process that does not
/// exist.
#[derive(Drop)]
pub struct Replay {
    pub world: World,
    pub did: u64,
    pub not_enabled: u64,
    pub refused: u64,
}

impl Replay {
    /// Makes a replay that has done no step yet. It fails only if memory is refused.
    ///
    /// Whatever steps `do_step` receives, and in whatever order, this holds after each of them (clauses `safe` to `balances`). Undoing the
    /// events of a process that are not committed, the newest first, gives its state in the one-thread run after just its committed events,
    /// which are the first ones there. Its events below GVT are those of the one-thread run, and are never undone. GVT never falls.
    /// Messages and antimessages balance. A run that is finished has the events and the rows of the whole one-thread run.
    pub fn new(alloc: Global, network: Network) -> Result<Self, StepFault>
        ensures network { IfOk result (λ replay. replay.world.plan ≡ network) }
        ensures replayed { IfOk result (λ replay. IsReplayed replay []) }
        ensures totals { IfOk result (λ replay. replay.did + replay.not_enabled + replay.refused ≡ 0) }
        ensures memory { IfErr result (λ fault. fault ≡ OutOfMemory) }
        ensures safe { (steps : List Step) → Safe (simulation_of network) (after network steps) }
        ensures rises { (steps more : List Step) → (after network steps).gvt ≤ (after network (steps ++ more)).gvt }
        ensures never_undone { (steps more : List Step) (p : ℕ) →
            earlier (simulation_of network).rules.order (after network steps).gvt (history (simulation_of network) (after network (steps ++ more)) p)
            ≡ earlier (simulation_of network).rules.order (after network steps).gvt (history (simulation_of network) (after network steps) p) }
        ensures whole { (steps : List Step) → IsFinished (simulation_of network) (after network steps) → IsWhole (simulation_of network) (after network steps) }
        ensures balances { (steps : List Step) (m : Message) → CountLaw (simulation_of network) (after network steps) m }
    {
        world_law(&network);
        let world = World::new(alloc, network)?;
        Ok(Replay {
            world,
            did: 0,
            not_enabled: 0,
            refused: 0,
        })
    }

    /// Does one more step, and counts it. A step that is not enabled, or that names a process that does not exist, is counted and changes
    /// nothing. `OutOfMemory` comes only if memory was refused, at a step that is enabled and not `Gvt`. `Exhausted` comes exactly at `Run`
    /// of a process that has a next message, and not enough numbers left for what one event can send. Both leave the world and the counts
    /// as they were.
    pub fn do_step(&mut self, step: Step) -> Result<(), StepFault>
        requires { self.old.did + self.old.not_enabled + self.old.refused < 2 ^ 63 }
        ensures replayed { OnOk result ((steps : List Step) → IsReplayed self.old steps → IsReplayed self.new (steps ++ step ∷ [])) }
        ensures totals { OnOk result (self.new.did + self.new.not_enabled + self.new.refused ≡ self.old.did + self.old.not_enabled + self.old.refused + 1) }
        ensures network { self.new.world.plan ≡ self.old.world.plan }
        ensures refused { OnErr result ((steps : List Step) → IsReplayed self.old steps → IsReplayed self.new steps) }
        ensures known { result ≢ Err NoProcess }
        ensures exhausted { (steps : List Step) → IsReplayed self.old steps → (result ≡ Err Exhausted)
            ↔ IsExhausted (simulation_of self.old.world.plan) step (after self.old.world.plan steps) }
        ensures memory { result ≡ Err OutOfMemory → (steps : List Step) → IsReplayed self.old steps →
            is_enabled (simulation_of self.old.world.plan) step (after self.old.world.plan steps) ≡ true }
        ensures gvt { step ≡ Gvt → IsOk result }
    {
        match self.world.step(step) {
            Ok(done) => {
                done.count(&mut self.did, &mut self.not_enabled);
                Ok(())
            }
            Err(StepFault::NoProcess) => {
                self.refused += 1;
                Ok(())
            }
            Err(fault) => Err(fault),
        }
    }
}
