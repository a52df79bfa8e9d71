//! What happens to the rows of a run that can no longer change, while it goes on.
ghost use Rattle.std.specs.Prelude.{◌≡◌, IfErr};
ghost use Rattle.journal.specs.declared.fault.PoolFault.TheVariants.{OutOfMemory};
ghost use Rattle.group_end.specs.Together.{OnlyRowsLeft};

use crate::desk::TraceLock;
use group_end::RowsLeave;
use group_turns::{NetworkGroup, OfGroups, RunFault};
use journal::PoolFault;
use network::Network;
use network_runs::NetworkRun;
use nodes::Node;
use run_rows::{Counted, moment_of};
use std::alloc::AllocError;
use std::sync::{Mutex, Wait};

/// The number of such rows of a group at which they are counted.
const MANY_ROWS: usize = 512;

/// What happens to the rows of a run that can no longer change.
#[derive(Drop)]
pub(crate) enum Leaving<'l, J: NetworkRun> {
    /// They stay in their groups.
    Stay,
    /// They are counted into tables.
    Counted(&'l Mutex<Counted<J>>),
    /// They go to the trace, in segments.
    Trace(&'l TraceLock<J>),
}

impl<J: NetworkRun> Leaving<'_, J> {
    /// Lets rows of a group that can no longer change leave it. The caller does not have the lock of the exchange.
    pub(crate) fn take_rows<T: Wait>(
        &self,
        rt: &T,
        network: &Network,
        group: &mut NetworkGroup<J>,
    ) -> Result<(), RunFault<J>>
        requires { network.now ≡ J.plan }
        ensures rows { OnlyRowsLeft group.old group.new }
        ensures memory { IfErr result (λ fault. fault ≡ OutOfMemory) }
    {
        match self {
            Leaving::Stay => Ok(()),
            Leaving::Counted(counted) => {
                if group.sealed().len() >= MANY_ROWS {
                    let mut counted = counted.lock(rt);
                    count_rows(&mut counted, network, group)?;
                }
                Ok(())
            }
            Leaving::Trace(trace) => trace.give_segments(rt, group),
        }
    }
}

/// What happens to rows behind each turn that the thread gives which holds everything.
#[derive(Drop)]
pub(crate) struct LeavingNow<'s, J: NetworkRun, T> {
    pub rt: &'s T,
    pub leaving: &'s Leaving<'s, J>,
    pub network: &'s Network,
    pub ghost planned: { network.now ≡ J.plan },
}

impl<J: NetworkRun, T: Wait> RowsLeave<Node, OfGroups<J>> for LeavingNow<'_, J, T> {
    fn let_go(&self, group: &mut NetworkGroup<J>) -> Result<(), PoolFault> {
        match self.leaving.take_rows(self.rt, self.network, group) {
            Ok(()) => Ok(()),
            Err(fault) => Err(PoolFault::from(fault)),
        }
    }
}

/// Counts the rows of a group that can no longer change, as far as the group saw. They leave it, if it has a moment of its own there. It
/// fails only if memory is or was refused; then no tables exist from then on.
fn count_rows<J: NetworkRun>(
    counted: &mut Counted<J>,
    network: &Network,
    group: &mut NetworkGroup<J>,
) -> Result<(), AllocError>
    requires { network.now ≡ J.plan }
    ensures { OnlyRowsLeft group.old group.new }
{
    let number = usize::from(group.number());
    let to = group.gvt_seen();
    if number >= counted.own.len() || !group.is_committed_before(to) {
        return Ok(());
    }
    let from = moment_of(counted.own.as_slice(), counted.end, number);
    if from.ns() < group.gone_before().ns() || to.ns() < from.ns() {
        return Ok(());
    }
    counted.take_of_group(network, number, to, group.rows_between(from, to))?;
    group.let_rows_go(to);
    Ok(())
}
