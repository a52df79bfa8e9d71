//! The end of a run: one thread holds everything, and gives turns until all is committed.
ghost use Rattle.std.specs.Prelude.{◌≡◌, ◌≢◌, ℕ, true, false, length, slice_get, Some, IfErr, OnOk};
ghost use Rattle.virtual_time.specs.Law.{IsFinished, Laws};
ghost use Rattle.network.specs.Words.{process_count};
ghost use Rattle.nodes.specs.Words.{NodeState, simulation_of};
ghost use Rattle.nodes.specs.declared.node.NodeRecord.{NodeRecord};
ghost use Rattle.journal.specs.declared.fault.PoolFault.TheVariants.{Spawn};
ghost use Rattle.group_exchange.specs.Views.{GroupState};
ghost use Rattle.group_exchange.specs.Keeps.{AreGrouped};
ghost use Rattle.group_end.specs.Together.{AreInPlace, AreOver};
ghost use Rattle.seqsim.specs.Committed.{after};
ghost use Rattle.worker_pool.specs.Runs.{IsOfWorld, IsEnded, HaveGoneBy};

use crate::leaving::{Leaving, LeavingNow};
use crate::speed::Speed;
use group_end::{end, put_in_place};
use group_turns::{NetworkGroup, RunFault, Shared};
use journal::Gate;
use network::Network;
use network_runs::NetworkRun;
use run_rows::moment_of;
use seqsim::network_law;
use std::sync::Wait;
use vlink::Time;

/// The exchange and all groups of a run, which no worker holds any more.
#[derive(Drop)]
pub(crate) struct Unlocked<'n, J: NetworkRun> {
    pub network: &'n Network,
    pub speed: Speed,
    pub exchange: Shared<J>,
    pub groups: Vec<NetworkGroup<J>>,
    pub ghost planned: { network.now ≡ J.plan },
}

/// Returns the end time of the run, which meets the laws of virtual time.
fn until_of<J: NetworkRun>(network: &Network) -> Time
    requires { network.now ≡ J.plan }
    ensures laws { Laws (simulation_of J.plan) }
    ensures until { result ≡ J.plan.until }
{
    network_law(network);
    network.until()
}

impl<J: NetworkRun> Unlocked<'_, J> {
    /// Sets GVT and gives each group a turn, again and again until the run is ended. The loop does finitely many rounds (`group_end::end`).
    /// In the last turn each group has seen the GVT after the end, and has no segment of the trace left to give.
    pub(crate) fn end<G: Gate, T: Wait>(
        &mut self,
        rt: &T,
        leaving: &Leaving<'_, J>,
        gate: &G,
    ) -> Result<(), RunFault<J>>
        requires { length self.old.groups.items ≡ length J.names }
        ensures ended { OnOk result (IsEnded J.plan J.owners self.new.exchange.steps self.new.groups.items) }
        ensures count { OnOk result (length self.new.groups.items ≡ length J.names) }
        ensures speed { self.new.speed ≡ self.old.speed }
        ensures no_spawn { IfErr result (λ fault. fault ≢ Spawn) }
    {
        self.put_in_place();
        self.finish(rt, leaving, gate)?;
        self.are_of_world();
        Ok(())
    }

    /// Puts each group at the place of its number.
    fn put_in_place(&mut self)
        requires { length self.old.groups.items ≡ length J.names }
        ensures all { length self.new.groups.items ≡ length J.names }
        ensures in_place { AreInPlace self.new.groups.items }
        ensures speed { self.new.speed ≡ self.old.speed }
    {
        put_in_place(&mut self.exchange.inner, self.groups.as_mut_slice());
    }

    /// Gives rounds until the world is finished.
    fn finish<G: Gate, T: Wait>(
        &mut self,
        rt: &T,
        leaving: &Leaving<'_, J>,
        gate: &G,
    ) -> Result<(), RunFault<J>>
        requires all { length self.old.groups.items ≡ length J.names }
        requires in_place { AreInPlace self.old.groups.items }
        ensures all { length self.new.groups.items ≡ length J.names }
        ensures in_place { OnOk result (AreInPlace self.new.groups.items) }
        ensures over { OnOk result (AreOver J.plan.until self.new.groups.items) }
        ensures finished { OnOk result (IsFinished (simulation_of J.plan) (after J.plan self.new.exchange.steps)) }
        ensures speed { self.new.speed ≡ self.old.speed }
        ensures no_spawn { IfErr result (λ fault. fault ≢ Spawn) }
    {
        let until = until_of::<J>(self.network);
        let rows = LeavingNow {
            rt,
            leaving,
            network: self.network,
        };
        match end(
            &mut self.exchange.inner,
            self.groups.as_mut_slice(),
            until,
            self.speed.turn.max(1),
            self.speed.window_ns.max(1),
            gate,
            &rows,
        ) {
            Ok(()) => Ok(()),
            Err(fault) => Err(RunFault::new(fault)),
        }
    }

    /// Groups for which the run is over have no step that is not in the journal. So their processes are those of the journal.
    fn are_of_world(&self)
        requires in_place { AreInPlace self.now.groups.items }
        requires over { AreOver J.plan.until self.now.groups.items }
        ensures grouped { AreGrouped (process_count J.plan) (length J.names) J.owners }
        ensures each { (g : ℕ) (group : GroupState NodeState NodeRecord) → slice_get self.now.groups.items g ≡ Some group →
            IsOfWorld J.plan J.owners self.now.exchange.steps g group }
    {
        let _groups = self.exchange.as_exchange().groups();
        for place in 0..self.groups.len() {
            let group = &self.groups[place];
            let _fits = self.exchange.as_exchange().fits(group);
        }
    }

    /// Whether all rows that have left a group are of moments before its own, in ns, if one is listed, and otherwise before `end`. None has
    /// left if that is 0.
    pub(crate) fn have_gone_by(&self, own: &[Time], end: Time) -> bool
        ensures by { result ≡ true → HaveGoneBy own.now end self.now.groups.items }
        ensures later { result ≡ false → HaveGoneBy own.now end self.now.groups.items → ⊥ }
    {
        for place in 0..self.groups.len() {
            let group = &self.groups[place];
            if group.gone_before().ns() > moment_of(own, end, place).ns() {
                return false;
            }
        }
        true
    }
}
