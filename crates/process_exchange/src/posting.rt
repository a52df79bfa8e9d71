//! What a process did goes to the journal, and its letters to the mail.
ghost use Rattle.std.specs.Prelude.{◌≡◌, ◌<◌, ◌+◌, ◌⊎◌, length, OnOk, OnErr, IfErr, Err, true};
ghost use Rattle.virtual_time.specs.Law.{steps};
ghost use Rattle.reverse.specs.Rules.{rules_of};
ghost use Rattle.reverse.specs.Setting.{simulation_of};
ghost use Rattle.journal.specs.declared.fault.PoolFault.TheVariants.{OutOfMemory, JournalFull, Torn};
ghost use Rattle.process_exchange.specs.Effects.{Posts};

use crate::entering::{enter, reserve_to_post};
use crate::exchange::Exchange;
use crate::held::Held;
use crate::run_of::ActorRun;
use journal::{Block, Entry, PoolFault};
use reverse::{Actor, actor_law};
use std::mem;

/// Appends the block of a process to the journal as one entry, moves its outbox to the mail, and sets its floor to the least moment of what
/// it has left. If the block is empty it changes nothing.
///
/// Any refusal leaves both as they were. `JournalFull` comes exactly if the steps would pass the limit, which is checked before memory is
/// requested. `Torn` comes only if the journal is stored and others share its table: another one wrote the entry's place, which is checked
/// after the room is made.
pub fn post<R: Actor, J: ActorRun<R>>(
    held: &mut Held<R, J>,
    exchange: &mut Exchange<R, J>,
) -> Result<(), PoolFault>
    ensures ok { OnOk result (Posts (simulation_of (rules_of R.plain) J.setting) exchange.old held.old exchange.new held.new) }
    ensures unchanged { OnErr result ((exchange.new ≡ exchange.old) × (held.new ≡ held.old)) }
    ensures full { result ≡ Err JournalFull →
        (0 < length held.old.block) × (exchange.old.limit < length (steps exchange.old.entries) + length held.old.block + 1) }
    ensures limited { 0 < length held.old.block → exchange.old.limit < length (steps exchange.old.entries) + length held.old.block + 1 →
        result ≡ Err JournalFull }
    ensures faults { IfErr result (λ fault. (fault ≡ OutOfMemory) ⊎ ((fault ≡ JournalFull) ⊎ ((fault ≡ Torn) × (J.keeps ≡ true) × (exchange.old.shared ≡ true)))) }
{
    actor_law::<R>();
    let moves = held.block.len() as u64;
    if moves == 0 {
        return Ok(());
    }
    exchange.join_law(held);
    let prior = held.mark().place;
    if moves >= exchange.limit - exchange.steps {
        return Err(PoolFault::JournalFull);
    }
    if let Err(fault) = reserve_to_post(&held.process, &mut exchange.mail, &mut exchange.journal) {
        return Err(fault);
    }
    let block = mem::replace(&mut held.block, Block::new());
    let seen = held.standing.seen;
    enter(
        &mut exchange.journal,
        Entry::posted(held.number, prior, block),
        &mut held.standing,
        &mut exchange.marks,
        &mut held.mark,
        held.number,
        seen,
    );
    let _posted = held.process.post(&mut exchange.mail);
    exchange.floors.set(held.number, held.process.floor());
    exchange.steps += moves + 1;
    Ok(())
}
