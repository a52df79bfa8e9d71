//! A group at its work.
ghost use Rattle.std.specs.Prelude.{◌≡◌, ◌≤◌, ◌⊎◌, IfOk, IfErr};
ghost use Rattle.journal.specs.declared.fault.PoolFault.TheVariants.{OutOfMemory, Exhausted};
ghost use Rattle.nodes.specs.Words.{simulation_of};
ghost use Rattle.group_exchange.specs.Effects.{Works};
ghost use Rattle.group_turns.specs.Numbers.{LackNumbers};

use crate::network_run::NetworkGroup;
use group_exchange::work;
use journal::{Gate, PoolFault};
use network_runs::NetworkRun;

/// The group handles messages that are earlier than the GVT that it saw plus `ahead_ns`, at most `most` of them. Returns how many. If it is
/// refused for numbers, one of its processes lacks them.
pub fn work_ahead<J: NetworkRun, G: Gate>(
    group: &mut NetworkGroup<J>,
    most: u32,
    ahead_ns: u64,
    gate: &G,
) -> Result<u32, PoolFault>
    ensures ok { IfOk result (λ count. Works (simulation_of J.plan) J.owners most ahead_ns group.old group.new count) }
    ensures few { IfOk result (λ count. count ≤ most) }
    ensures numbers { IfErr result (λ fault. fault ≡ Exhausted → LackNumbers J.plan J.owners group.new) }
    ensures faults { IfErr result (λ fault. (fault ≡ OutOfMemory) ⊎ (fault ≡ Exhausted)) }
{
    match work(group, most, ahead_ns, gate) {
        Ok(count) => Ok(count as u32),
        Err(fault) => Err(fault),
    }
}
