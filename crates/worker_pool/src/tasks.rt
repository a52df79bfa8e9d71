//! What a worker does with a group of a network's run.
ghost use Rattle.std.specs.Prelude.{◌≡◌};

use crate::leaving::Leaving;
use group_turns::{NetworkGroup, OfGroups, RunFault, Shared, least_ns, meet_at, work_ahead};
use journal::Gate;
use network::Network;
use network_runs::NetworkRun;
use std::sync::{Mutex, Wait};
use turns::{Apart, Common, Moments, Report, Seat, Tasks, locked_soon};
use vlink::Time;

/// What workers use for the groups of a run that they hold: the lock of the exchange, and what happens to rows.
#[derive(Drop)]
pub(crate) struct NetworkTasks<'s, 'n, J: NetworkRun, G, T> {
    pub rt: &'s T,
    pub gate: &'s G,
    pub network: &'n Network,
    pub exchange: Mutex<Apart<Shared<J>>>,
    pub leaving: &'s Leaving<'s, J>,
    pub ghost planned: { network.now ≡ J.plan },
}

/// What all workers of a run share.
pub(crate) type CommonOf<'s, 'n, J, G, T> = Common<NetworkGroup<J>, NetworkTasks<'s, 'n, J, G, T>>;

impl<J: NetworkRun, G: Gate, T: Wait> Tasks<NetworkGroup<J>> for NetworkTasks<'_, '_, J, G, T> {
    type Fault = RunFault<J>;

    type Run = OfGroups<J>;

    ghost use Rattle.std.specs.Prelude.{◌≡◌};
    ghost use Rattle.nodes.specs.Words.{simulation_of};
    ghost use Rattle.group_hand.specs.Hands.{IsAsBefore};
    ghost use Rattle.group_exchange.specs.Effects.{Works};

    ghost handles = { λ old new most ahead_ns count. Works (simulation_of J.plan) J.owners most ahead_ns old new count };

    ghost stays = { λ old new. new ≡ record old { held = new.held } × IsAsBefore old.held new.held };

    fn report(&self, seat: &Seat<NetworkGroup<J>>) -> Report {
        let group = &seat.group;
        Report {
            number: group.number(),
            next_ns: seat.next_ns,
            seen_ns: group.gvt_seen().ns(),
            unposted: seat.unposted,
            letters_ns: least_ns(group.letters_abroad()),
            has_block: group.has_block(),
        }
    }

    fn next_ns(&self, group: &mut NetworkGroup<J>) -> u64 {
        match group.next_time() {
            Some(moment) => moment.ns(),
            None => u64::MAX,
        }
    }

    /// At a refusal the exchange states whether numbers are used up.
    fn handle(
        &self,
        group: &mut NetworkGroup<J>,
        most: u32,
        ahead_ns: u64,
    ) -> Result<u32, RunFault<J>> {
        match work_ahead(group, most, ahead_ns, self.gate) {
            Ok(count) => Ok(count),
            Err(fault) => Err(self.exchange.lock(self.rt).value.fault_of(group, fault)),
        }
    }

    fn meet(
        &self,
        group: &mut NetworkGroup<J>,
        waits: bool,
        moments: &Moments,
        letters_ns: &mut [u64],
    ) -> Result<u64, RunFault<J>> {
        let mut exchange = locked_soon(self.rt, &self.exchange);
        let met = match meet_at(&mut exchange.value, group, waits, letters_ns) {
            Ok(gvt) => Ok(announced(moments, group.number(), gvt)),
            Err(fault) => Err(fault),
        };
        drop(exchange);
        met
    }

    fn publish(&self, moments: &Moments) -> Result<bool, RunFault<J>> {
        let Some(mut exchange) = self.exchange.try_lock() else {
            return Ok(false);
        };
        let gvt = exchange.value.publish()?;
        Ok(moments.publish(gvt.ns()))
    }

    fn let_go(&self, group: &mut NetworkGroup<J>) -> Result<(), RunFault<J>> {
        self.leaving.take_rows(self.rt, self.network, group)
    }
}

/// Announces GVT, in ns, if a section set it, and that the letters that waited for the group are collected. Returns the least moment of those
/// that were announced, in ns. The caller has the lock of the exchange.
fn announced(moments: &Moments, group: u16, gvt: Option<Time>) -> u64 {
    if let Some(gvt) = gvt {
        let _is_new = moments.publish(gvt.ns());
    }
    moments.collect(group)
}
