//! The end of the threads: their groups come back.
ghost use Rattle.std.specs.Prelude.{◌≡◌, ◌<◌, Err, IfOk, IfErr, IsErr, length};
ghost use Rattle.journal.specs.declared.fault.PoolFault.TheVariants.{Spawn};
ghost use Rattle.worker_pool.specs.Outcomes.{HandsOnFaults};
ghost use Rattle.worker_pool.specs.Paces.{speed_of};

use crate::ending::Unlocked;
use crate::speed::Speed;
use crate::tasks::{CommonOf, NetworkTasks};
use actor_run::Watch;
use group_turns::RunFault;
use journal::Gate;
use network_runs::NetworkRun;
use std::alloc::{AllocError, Global};
use std::sync::Wait;
use std::thread::Threads;
use turns::work_all;

/// Starts the workers, and joins all of them. If there is no group, it starts none. After that no thread holds a group: the groups are
/// here, in order.
///
/// A refusal to one worker ends the others at their next turn. All of them are joined, and the least fault of what they ended with, and of
/// the start, is returned. `Spawn`: a worker could not be started. While they run, the calling thread shows the watch GVT.
pub(crate) fn groups_worked<
    'n,
    J: NetworkRun + Send + Sync,
    G: Gate + Sync,
    T: Threads + Wait + Sync,
    W: Watch,
>(
    rt: &T,
    alloc: Global,
    common: CommonOf<'_, 'n, J, G, T>,
    watch: &mut W,
) -> Result<Unlocked<'n, J>, RunFault<J>>
    ensures speed { IfOk result (λ r. r.speed ≡ speed_of common.entry.workers common.entry.turn common.entry.window_ns) }
    ensures groups { IfOk result (λ r. length r.groups.items ≡ common.entry.groups) }
    ensures told { HandsOnFaults common.entry.workers result }
    ensures spawn { IfErr result (λ fault. fault ≡ Spawn → 0 < common.entry.workers) }
    ensures watched { W.becomes watch.old watch.new }
{
    let (worked, _watch) = work_all(rt, alloc, &common, watch);
    unlocked_of(alloc, worked, common)
}

/// Returns the exchange and all groups, which no worker holds any more, if all succeeded.
fn unlocked_of<'n, J: NetworkRun, G: Gate, T: Wait>(
    alloc: Global,
    worked: Result<(), RunFault<J>>,
    common: CommonOf<'_, 'n, J, G, T>,
) -> Result<Unlocked<'n, J>, RunFault<J>>
    ensures speed { IfOk result (λ r. r.speed ≡ speed_of common.entry.workers common.entry.turn common.entry.window_ns) }
    ensures groups { IfOk result (λ r. length r.groups.items ≡ common.entry.groups) }
    ensures told { IfErr worked (λ fault. result ≡ Err fault) }
    ensures spawn { IfErr result (λ fault. fault ≡ Spawn → IsErr worked) }
{
    match worked {
        Ok(()) => Ok(taken_back(alloc, common)?),
        Err(fault) => {
            drop(common);
            Err(fault)
        }
    }
}

/// Returns the exchange and all groups, which no worker holds any more. Only memory can be refused.
fn taken_back<'n, J: NetworkRun, G: Gate, T: Wait>(
    alloc: Global,
    common: CommonOf<'_, 'n, J, G, T>,
) -> Result<Unlocked<'n, J>, AllocError>
    ensures speed { IfOk result (λ r. r.speed ≡ speed_of common.entry.workers common.entry.turn common.entry.window_ns) }
    ensures groups { IfOk result (λ r. length r.groups.items ≡ common.entry.groups) }
{
    let speed = Speed {
        workers: common.workers,
        turn: common.turn,
        window_ns: common.window_ns,
    };
    let (groups, tasks) = common.into_groups(alloc)?;
    let NetworkTasks {
        network,
        exchange,
        ..
    } = tasks;
    Ok(Unlocked {
        network,
        speed,
        exchange: exchange.into_inner().into_inner(),
        groups,
    })
}
