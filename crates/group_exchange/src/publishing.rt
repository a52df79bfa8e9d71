//! Sets GVT.
ghost use Rattle.std.specs.Prelude.{◌≡◌, ◌<◌, ◌≤◌, ◌⊎◌, ℕ, length, IfOk, IfErr, OnErr, Err};
ghost use Rattle.reverse.specs.Rules.{rules_of};
ghost use Rattle.reverse.specs.Setting.{simulation_of};
ghost use Rattle.journal.specs.declared.fault.PoolFault.TheVariants.{OutOfMemory, JournalFull};
ghost use Rattle.group_exchange.specs.Effects.{CanDoMore, Publishes, IsHeldBack};

use crate::groups::GroupExchange;
use crate::run_of::GroupRun;
use group_boxes::horizon;
use journal::PoolFault;
use reverse::{Actor, actor_law};
use vlink::Time;

/// Sets GVT to the least of all floors and of the times of all letters in transit, with a step in the journal. If GVT does not change, no
/// step is added. Returns GVT, in ns.
///
/// Any refusal leaves the exchange as it was. `JournalFull`: exactly where the steps would pass the limit, which is looked at before any
/// growth. So more steps can be done than the limit allows.
pub fn publish<R: Actor, J: GroupRun<R>>(
    exchange: &mut GroupExchange<R, J>,
) -> Result<Time, PoolFault>
    ensures ok { IfOk result (λ gvt. Publishes (simulation_of (rules_of R.plain) J.setting) J.owners exchange.old exchange.new gvt) }
    ensures unchanged { OnErr result (exchange.new ≡ exchange.old) }
    ensures full { result ≡ Err JournalFull → IsHeldBack (simulation_of (rules_of R.plain) J.setting) J.owners exchange.old × (exchange.old.limit ≤ length exchange.old.steps) }
    ensures limited { IsHeldBack (simulation_of (rules_of R.plain) J.setting) J.owners exchange.old → exchange.old.limit ≤ length exchange.old.steps → result ≡ Err JournalFull }
    ensures long { result ≡ Err JournalFull → CanDoMore (simulation_of (rules_of R.plain) J.setting) exchange.old.limit }
    ensures faults { IfErr result (λ fault. (fault ≡ OutOfMemory) ⊎ (fault ≡ JournalFull)) }
{
    actor_law::<R>();
    let gvt = horizon(&exchange.boxes, &exchange.floors, exchange.end);
    if gvt == exchange.gvt {
        return Ok(gvt);
    }
    if exchange.journal.len() >= exchange.limit {
        return Err(PoolFault::JournalFull);
    }
    if let Err(fault) = exchange.journal.reserve(1) {
        return Err(fault);
    }
    exchange.journal.publish();
    exchange.gvt = gvt;
    Ok(gvt)
}
