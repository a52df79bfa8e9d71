//! Sets GVT.
ghost use Rattle.std.specs.Prelude.{◌≡◌, ◌<◌, ◌≤◌, ◌⊎◌, ℕ, length, IfOk, IfErr, OnErr, Err, true};
ghost use Rattle.virtual_time.specs.Law.{steps};
ghost use Rattle.reverse.specs.Rules.{rules_of};
ghost use Rattle.reverse.specs.Setting.{simulation_of};
ghost use Rattle.journal.specs.declared.fault.PoolFault.TheVariants.{OutOfMemory, JournalFull, Torn};
ghost use Rattle.process_exchange.specs.Effects.{Publishes, IsHeldBack};

use crate::exchange::Exchange;
use crate::run_of::ActorRun;
use gvt::{gvt_law, horizon};
use journal::{Entry, PoolFault};
use reverse::{Actor, actor_law};
use vlink::{Note, Time};

/// Sets GVT to the least of all floors and of the times of all letters in the mail, with an entry in the journal. If GVT does not change,
/// no entry is made. Returns GVT, in ns.
///
/// Any refusal leaves the exchange as it was. `JournalFull` comes exactly if the steps would pass the limit, which is checked before memory
/// is requested. `Torn` comes only if the journal is stored and others share its table: another one wrote the entry's place, which is
/// checked after the room is made.
pub fn publish<R: Actor, J: ActorRun<R>>(exchange: &mut Exchange<R, J>) -> Result<Time, PoolFault>
    ensures ok { IfOk result (λ gvt. Publishes (simulation_of (rules_of R.plain) J.setting) exchange.old exchange.new gvt) }
    ensures unchanged { OnErr result (exchange.new ≡ exchange.old) }
    ensures full { result ≡ Err JournalFull → IsHeldBack (simulation_of (rules_of R.plain) J.setting) exchange.old × (exchange.old.limit ≤ length (steps exchange.old.entries)) }
    ensures limited { IsHeldBack (simulation_of (rules_of R.plain) J.setting) exchange.old → exchange.old.limit ≤ length (steps exchange.old.entries) → result ≡ Err JournalFull }
    ensures faults { IfErr result (λ fault. (fault ≡ OutOfMemory) ⊎ ((fault ≡ JournalFull) ⊎ ((fault ≡ Torn) × (J.keeps ≡ true) × (exchange.old.shared ≡ true)))) }
{
    actor_law::<R>();
    gvt_law::<R, R::Record, Note>();
    let gvt = horizon(&exchange.floors, &exchange.mail);
    if gvt == exchange.gvt {
        return Ok(gvt);
    }
    if exchange.steps >= exchange.limit {
        return Err(PoolFault::JournalFull);
    }
    if let Err(fault) = exchange.journal.reserve() {
        return Err(fault);
    }
    exchange.journal.push_reserved(Entry::published());
    exchange.gvt = gvt;
    exchange.steps += 1;
    Ok(gvt)
}
