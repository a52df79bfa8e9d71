//! What happens to the rows of a group behind each of its turns.
ghost use Rattle.std.specs.Prelude.{◌≡◌, IfErr, OnOk};
ghost use Rattle.journal.specs.declared.fault.PoolFault.TheVariants.{OutOfMemory};
ghost use Rattle.group_end.specs.Together.{OnlyRowsLeft};

use group_exchange::{Group, GroupRun};
use journal::PoolFault;
use reverse::Actor;

/// What happens to the rows of a group that can no longer change.
pub trait RowsLeave<R: Actor, J: GroupRun<R>> {
    /// Lets rows of the group leave it that can no longer change, or lets them stay. Only memory can be refused.
    fn let_go(&self, group: &mut Group<R, J>) -> Result<(), PoolFault>
        ensures rows { OnOk result (OnlyRowsLeft group.old group.new) }
        ensures memory { IfErr result (λ fault. fault ≡ OutOfMemory) };
}
