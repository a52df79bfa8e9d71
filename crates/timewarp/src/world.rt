//! The world of a network.
ghost use Rattle.std.specs.Prelude.{◌≡◌, ◌≢◌, ◌↔◌, ◌≤◌, ◌<◌, ℕ, true, [], ◌∷◌, ◌++◌, List, length, slice_get, None, Ok, Err, IsTrue, IsNone, IfOk, IfErr, OnOk, OnErr, IfSome};
ghost use Rattle.std.specs.Option.{option_map};
ghost use Rattle.virtual_time.specs.declared.step.Step.TheVariants.{Gvt};
ghost use Rattle.virtual_time.specs.Law.{IsLeft, undo_all, is_enabled, IsFinished};
ghost use Rattle.virtual_time.specs.declared.step.Step.{Step};
ghost use Rattle.antimessages.specs.Steps.{names_none};
ghost use Rattle.network.specs.Words.{process_count};
ghost use Rattle.nodes.specs.Words.{opening, simulation_of};
ghost use Rattle.actor_world.specs.declared.done.Done.TheVariants.{Did};
ghost use Rattle.actor_world.specs.declared.fault.StepFault.TheVariants.{NoProcess, OutOfMemory, Exhausted};
ghost use Rattle.actor_world.specs.Worlds.{HoldsTheSame, IsExhausted};
ghost use Rattle.seqsim.specs.Committed.{after};
ghost use Rattle.timewarp.specs.Networks.{IsAfter};

use crate::laws::world_law;
use actor_world::{ActorWorld, Done, StepFault};
use network::Network;
use nodes::Node;
use seqsim::{layout_law, nodes_of};
use std::alloc::Global;
use std::marker::Model;
use traffic::offers;
use vlink::{Letter, Step, Time};

/// A network in a Time Warp run: all its processes with their mail, their floors and GVT, from the start or after some steps.
///
/// Clauses see it as the plan of its network and the world of the laws of virtual time after those steps.
#[derive(Drop)]
pub struct World {
    pub(crate) network: Network,
    pub(crate) actors: ActorWorld<Node>,
}

impl Model for World {
    ghost use Rattle.std.specs.Prelude.{List};
    ghost use Rattle.virtual_time.specs.declared.step.Step.{Step};
    ghost use Rattle.timewarp.specs.Networks.{NetworkWorld, IsAfter};

    ghost Value = { NetworkWorld };

    ghost view = { λ w. record { plan = w.network; held = w.actors } };

    ghost invariant = { λ w. (steps : List Step) × IsAfter (record { plan = w.network; held = w.actors }) steps };
}

impl World {
    /// Makes the world at the start: the offers are in the mail in their order, each process is in its opening state, every floor is the
    /// moment after the end, and GVT is 0. It fails only if memory is refused.
    pub fn new(alloc: Global, network: Network) -> Result<World, StepFault>
        ensures opens { IfOk result (λ world. IsAfter world []) }
        ensures network { IfOk result (λ world. world.plan ≡ network) }
        ensures memory { IfErr result (λ fault. fault ≡ OutOfMemory) }
    {
        let actors = opened(alloc, &network)?;
        Ok(World { network, actors })
    }

    /// Does one step, if it is enabled. A step that is not enabled, and one that is refused, change nothing.
    ///
    /// `NoProcess` comes exactly if the step names a process that does not exist. `OutOfMemory` comes only if memory was refused: neither
    /// at `Gvt` nor at a step that is not enabled. `Exhausted` comes exactly at `Run` of a process that has a next message, and not enough
    /// numbers left for what one event can send.
    pub fn step(&mut self, step: Step) -> Result<Done, StepFault>
        ensures network { self.new.plan ≡ self.old.plan }
        ensures after { OnOk result ((steps : List Step) → IsAfter self.old steps → IsAfter self.new (steps ++ step ∷ [])) }
        ensures refused { OnErr result ((steps : List Step) → IsAfter self.old steps → IsAfter self.new steps) }
        ensures enabled { IfOk result (λ done. (steps : List Step) → IsAfter self.old steps →
            (done ≡ Did) ↔ (is_enabled (simulation_of self.old.plan) step (after self.old.plan steps) ≡ true)) }
        ensures unchanged { result ≢ Ok Did → HoldsTheSame self.old.held self.new.held }
        ensures no_process { (result ≡ Err NoProcess) ↔ (names_none (process_count self.old.plan) step ≡ true) }
        ensures exhausted { (steps : List Step) → IsAfter self.old steps →
            (result ≡ Err Exhausted) ↔ IsExhausted (simulation_of self.old.plan) step (after self.old.plan steps) }
        ensures memory { result ≡ Err OutOfMemory → (steps : List Step) → IsAfter self.old steps →
            is_enabled (simulation_of self.old.plan) step (after self.old.plan steps) ≡ true }
        ensures gvt { step ≡ Gvt → result ≡ Ok Did }
    {
        layout_law(&self.network);
        self.actors.step(step)
    }

    /// The law of a world: it is the world of its network after some steps. So a caller who receives a world can use the clauses on a world
    /// after steps.
    pub fn reached_law(&self)
        ensures { (steps : List Step) × IsAfter self.now steps }
    {
        let _ = &self.network;
    }

    /// Returns the network.
    pub fn network(&self) -> &Network
        ensures { result.now ≡ self.now.plan }
    {
        &self.network
    }

    /// Returns GVT: the moment below which nothing is undone any more.
    pub fn gvt(&self) -> Time
        ensures { (steps : List Step) → IsAfter self.now steps → result ≡ (after self.now.plan steps).gvt }
    {
        self.actors.gvt()
    }

    /// Whether the run is finished: GVT is beyond the end, and every done event is committed.
    pub fn is_finished(&self) -> bool
        ensures { (steps : List Step) → IsAfter self.now steps → IsTrue result ↔ IsFinished (simulation_of self.now.plan) (after self.now.plan steps) }
    {
        layout_law(&self.network);
        self.actors.is_finished(self.network.until())
    }

    /// Returns the letter number `place`, from 0, of the mail of process `process`: the one that the step Take would take. None if no
    /// letter has that number, or the process does not exist.
    pub fn look(&self, process: u16, place: usize) -> Option<Letter>
        ensures letter { process < process_count self.now.plan → (steps : List Step) → IsAfter self.now steps →
            result ≡ slice_get ((after self.now.plan steps).mail process) place }
        ensures none { process_count self.now.plan ≤ process → result ≡ None }
    {
        layout_law(&self.network);
        self.actors.look(process, place)
    }

    /// Undoes all done events of process `process`, the newest first, each by its record, and returns its node; none if the process does
    /// not exist. Sends nothing and takes no memory. The node then has its state in the one-thread run after just the events that were
    /// committed.
    pub fn undo_all(self, process: u16) -> Option<Node>
        ensures none { IsNone result ↔ (process_count self.plan ≤ process) }
        ensures undone { IfSome result (λ node. (steps : List Step) → IsAfter self steps →
            node ≡ undo_all (simulation_of self.plan).rules (opening self.plan process) ((after self.plan steps).parts process)) }
        ensures left { IfSome result (λ node. (steps : List Step) → IsAfter self steps →
            IsLeft (simulation_of self.plan) process (length ((after self.plan steps).parts process).committed) node) }
    {
        layout_law(&self.network);
        world_law(&self.network);
        self.actors.undo_all(process)
    }
}

/// Makes the processes of a network at the start, with their offers in the mail.
fn opened(alloc: Global, network: &Network) -> Result<ActorWorld<Node>, StepFault>
    ensures opens { IfOk result (λ actors. IsAfter (record { plan = network.now; held = actors }) []) }
    ensures memory { IfErr result (λ fault. fault ≡ OutOfMemory) }
{
    layout_law(network);
    let _processes = network.process_count();
    let offers = offers(alloc, network)?;
    let nodes = nodes_of(alloc, network)?;
    ActorWorld::new(alloc, nodes, &offers, network.until())
}
