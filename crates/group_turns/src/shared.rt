//! The exchange that all workers of a run share.
ghost use Rattle.std.specs.Prelude.{◌≡◌, ◌≢◌, ◌+◌, ◌<◌, ◌≤◌, ◌⊎◌, ℕ, true, List, [], length, IfErr, IfOk, IsSome, OnOk, Err};
ghost use Rattle.vlink.specs.Letters.{Letter};
ghost use Rattle.nodes.specs.Words.{simulation_of};
ghost use Rattle.journal.specs.declared.fault.PoolFault.TheVariants.{OutOfMemory, Exhausted, JournalFull, Spawn, Torn};
ghost use Rattle.group_exchange.specs.Views.{block_of};
ghost use Rattle.group_exchange.specs.Effects.{AreWaiting, Collects, Posts, Publishes};
ghost use Rattle.group_turns.specs.Limit.{most_steps};
ghost use Rattle.group_turns.specs.Numbers.{LackNumbers};
ghost use Rattle.group_turns.specs.Section.{SetsGvt};

use crate::network_run::{NetworkGroup, OfGroups};
use crate::run_fault::RunFault;
use group_exchange::{GroupExchange, collect, post, publish};
use journal::PoolFault;
use network_runs::NetworkRun;
use nodes::Node;
use std::marker::Model;
use vlink::Time;

/// GVT is set in one of this many sections of the exchange, since whoever sets it has the lock for longer.
const SECTIONS_PER_GVT: u64 = 4;

/// Returns the most steps that the journal of a run can have: 2^26 if it is stored, and 2^62 if it is not. It is a number, and not none,
/// also if the journal is not stored: no run gets that far, and no clause changes its form.
pub fn most_steps(keeps: bool) -> u64
    ensures { result ≡ most_steps keeps }
{
    if keeps {
        67_108_864
    } else {
        4_611_686_018_427_387_904
    }
}

/// The exchange of a run, with a limit on the steps of its journal, and how many sections workers had in it.
///
/// Clauses see it as the exchange.
#[derive(Drop)]
pub struct Shared<J: NetworkRun> {
    pub inner: GroupExchange<Node, OfGroups<J>>,
    pub sections: u64,
}

impl<J: NetworkRun> Model for Shared<J> {
    ghost use Rattle.std.specs.Prelude.{◌≡◌};
    ghost use Rattle.group_exchange.specs.Views.{Ledger};
    ghost use Rattle.group_turns.specs.Limit.{most_steps};

    ghost Value = { Ledger };

    ghost view = { λ s. s.inner };

    ghost invariant = { λ s. s.inner.limit ≡ most_steps J.keeps };
}

impl<J: NetworkRun> Shared<J> {
    /// Returns the exchange.
    pub fn as_exchange(&self) -> &GroupExchange<Node, OfGroups<J>>
        ensures { result.now ≡ self.now }
    {
        &self.inner
    }

    /// Moves all letters that wait for the group, which has posted what it did, to its tray. `JournalFull`: the steps would pass the most that
    /// a run can have.
    pub fn collect(&mut self, group: &mut NetworkGroup<J>) -> Result<(), RunFault<J>>
        requires posted { group.old.held.flow.words ≡ [] }
        ensures ok { OnOk result ((count : ℕ) × Collects (simulation_of J.plan) J.owners self.old group.old self.new group.new count) }
        ensures full { result ≡ Err JournalFull → (letters : List Letter) × AreWaiting (simulation_of J.plan) J.owners self.old group.old letters
            × (most_steps J.keeps < length self.old.steps + length letters) }
        ensures no_spawn { IfErr result (λ fault. fault ≢ Spawn) }
    {
        match collect(group, &mut self.inner) {
            Ok(_letters) => Ok(()),
            Err(fault) => Err(RunFault::new(fault)),
        }
    }

    /// Puts what the group did into the journal, and its letters into the boxes of the other groups. `JournalFull`: the steps would pass
    /// the most that a run can have.
    #[tactic(auto, using(crate::proofs::Emptied::emptied))]
    pub fn post(&mut self, group: &mut NetworkGroup<J>) -> Result<(), RunFault<J>>
        ensures ok { OnOk result (Posts (simulation_of J.plan) J.owners self.old group.old self.new group.new) }
        ensures empty { OnOk result (group.new.held.flow.words ≡ []) }
        ensures full { result ≡ Err JournalFull → (0 < length (block_of group.old))
            × (most_steps J.keeps < length self.old.steps + length (block_of group.old)) }
        ensures limited { most_steps J.keeps < length self.old.steps + length (block_of group.old) → 0 < length (block_of group.old) →
            result ≡ Err JournalFull }
        ensures faults { IfErr result (λ fault. (fault ≡ OutOfMemory) ⊎ (fault ≡ JournalFull)) }
        ensures no_spawn { IfErr result (λ fault. fault ≢ Spawn) }
    {
        match post(group, &mut self.inner) {
            Ok(()) => Ok(()),
            Err(fault) => Err(RunFault::new(fault)),
        }
    }

    /// Sets GVT, and returns it, in ns. `JournalFull`: the journal already has as many steps as a run can have.
    pub fn publish(&mut self) -> Result<Time, RunFault<J>>
        ensures ok { IfOk result (λ gvt. Publishes (simulation_of J.plan) J.owners self.old self.new gvt) }
        ensures full { result ≡ Err JournalFull → most_steps J.keeps ≤ length self.old.steps }
        ensures no_spawn { IfErr result (λ fault. fault ≢ Spawn) }
    {
        match publish(&mut self.inner) {
            Ok(gvt) => Ok(gvt),
            Err(fault) => Err(RunFault::new(fault)),
        }
    }

    /// Begins a section of a worker. In one of `SECTIONS_PER_GVT`, and if the worker waits for it, GVT is set and returned, in ns.
    pub fn publish_if_due(&mut self, waits: bool) -> Result<Option<Time>, RunFault<J>>
        ensures sets { IfOk result (λ gvt. SetsGvt J.plan J.owners gvt self.old self.new) }
        ensures waited { IfOk result (λ gvt. waits ≡ true → IsSome gvt) }
        ensures no_spawn { IfErr result (λ fault. fault ≢ Spawn) }
    {
        self.sections = self.sections.wrapping_add(1);
        if !waits && self.sections % SECTIONS_PER_GVT != 0 {
            return Ok(None);
        }
        let gvt = self.publish()?;
        Ok(Some(gvt))
    }

    /// Makes the fault of a group at its work. If a process of it lacks numbers, it does so in a run: after the steps of the journal and
    /// those of its block.
    pub fn fault_of(&self, group: &NetworkGroup<J>, fault: PoolFault) -> RunFault<J>
        requires numbers { fault ≡ Exhausted → LackNumbers J.plan J.owners group.now }
        requires no_torn { fault ≢ Torn }
        requires few { fault ≢ JournalFull }
        ensures { result ≡ fault }
    {
        let _groups = self.inner.groups();
        let _fits = self.inner.fits(group);
        RunFault::new(fault)
    }
}
