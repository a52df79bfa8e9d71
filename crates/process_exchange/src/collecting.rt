//! A process takes letters from the mail.
ghost use Rattle.std.specs.Prelude.{◌≡◌, ◌≢◌, ◌<◌, ◌≤◌, ◌+◌, ◌⊎◌, ℕ, [], map, min, set, take, length, slice_get, IfOk, OnErr, IfErr, Err, true};
ghost use Rattle.std.specs.Option.{option_map};
ghost use Rattle.virtual_time.specs.Law.{lowest, times_of, reach, steps};
ghost use Rattle.reverse.specs.Rules.{rules_of};
ghost use Rattle.reverse.specs.Setting.{simulation_of};
ghost use Rattle.vlink.specs.Order.{message_order};
ghost use Rattle.antimessages.specs.Mailing.{letters_for};
ghost use Rattle.journal.specs.declared.fault.PoolFault.TheVariants.{OutOfMemory, JournalFull, Torn};
ghost use Rattle.process_exchange.specs.Effects.{Collects, mark_at};

use crate::entering::{enter, reserve_to_collect};
use crate::exchange::Exchange;
use crate::held::Held;
use crate::mark::tell_both;
use crate::run_of::ActorRun;
use antimessages::Mail;
use gvt::Floors;
use journal::{Entry, PoolFault};
use reverse::{Actor, actor_law};

/// Moves the first letters of the mail of a process to its tray: `most` of them, or all if they are fewer. If it moves any, the journal
/// gets one entry. Both marks note the GVT of the exchange. Returns how many letters were taken.
///
/// Any refusal leaves both as they were. `JournalFull` comes exactly if the steps would pass the limit, which is checked before memory is
/// requested. `Torn` comes only if the journal is stored and others share its table: another one wrote the entry's place, which is checked
/// after the room is made.
pub fn collect<R: Actor, J: ActorRun<R>>(
    held: &mut Held<R, J>,
    exchange: &mut Exchange<R, J>,
    most: u32,
) -> Result<u32, PoolFault>
    requires posted { held.old.block ≡ [] }
    ensures ok { IfOk result (λ count. Collects (simulation_of (rules_of R.plain) J.setting) most exchange.old held.old exchange.new held.new count) }
    ensures unchanged { OnErr result ((exchange.new ≡ exchange.old) × (held.new ≡ held.old)) }
    ensures full { result ≡ Err JournalFull → exchange.old.limit < length (steps exchange.old.entries)
        + min most (length ((reach (simulation_of (rules_of R.plain) J.setting) exchange.old.entries).mail held.old.number)) }
    ensures limited { exchange.old.limit < length (steps exchange.old.entries)
        + min most (length ((reach (simulation_of (rules_of R.plain) J.setting) exchange.old.entries).mail held.old.number)) → result ≡ Err JournalFull }
    ensures faults { IfErr result (λ fault. (fault ≡ OutOfMemory) ⊎ ((fault ≡ JournalFull) ⊎ ((fault ≡ Torn) × (J.keeps ≡ true) × (exchange.old.shared ≡ true)))) }
{
    actor_law::<R>();
    let count = exchange.mail.count(held.number).min(most as usize);
    if count == 0 {
        see(held, exchange);
        return Ok(0);
    }
    exchange.join_law(held);
    let prior = held.mark().place;
    if exchange.limit - exchange.steps < count as u64 {
        return Err(PoolFault::JournalFull);
    }
    if let Err(fault) = reserve_to_collect(&mut held.process, &mut exchange.journal, count) {
        return Err(fault);
    }
    let entry = Entry::collected(held.number, prior, &exchange.mail, count as u32);
    enter(
        &mut exchange.journal,
        entry,
        &mut held.standing,
        &mut exchange.marks,
        &mut held.mark,
        held.number,
        exchange.gvt,
    );
    lower_floor(&mut exchange.floors, &exchange.mail, held.number, count);
    let _taken = held.process.collect(&mut exchange.mail, held.number, count);
    exchange.steps += count as u64;
    Ok(count as u32)
}

/// Both marks of a process note the GVT of the exchange.
fn see<R: Actor, J: ActorRun<R>>(held: &mut Held<R, J>, exchange: &mut Exchange<R, J>)
    requires posted { held.old.block ≡ [] }
    ensures exchange { exchange.new ≡ record {
      entries = exchange.old.entries;
      marks = set exchange.old.marks held.old.number (mark_at held.old.mark.place
          (reach (simulation_of (rules_of R.plain) J.setting) exchange.old.entries).gvt);
      shared = exchange.old.shared;
      limit = exchange.old.limit;
    } }
    ensures held { held.new ≡ record held.old {
      mark = mark_at held.old.mark.place (reach (simulation_of (rules_of R.plain) J.setting) exchange.old.entries).gvt;
    } }
{
    actor_law::<R>();
    exchange.join_law(held);
    held.standing.seen = exchange.gvt;
    tell_both(
        &mut exchange.marks,
        &mut held.mark,
        held.number,
        &held.standing,
    );
}

/// Lowers the floor of a process to the least time of the first `count` letters in its mail, if that is lower.
fn lower_floor(floors: &mut Floors, mail: &Mail, process: u16, count: usize)
    requires within { process < length floors.old.floors }
    requires enough { count ≤ length (letters_for process mail.now) }
    ensures floor { slice_get floors.new.floors process
        ≡ option_map (λ floor. lowest floor (times_of message_order (take count (letters_for process mail.now)))) (slice_get floors.old.floors process) }
    ensures others { (q : ℕ) → q ≢ process → slice_get floors.new.floors q ≡ slice_get floors.old.floors q }
    ensures processes { length floors.new.floors ≡ length floors.old.floors }
    ensures until { floors.new.until ≡ floors.old.until }
{
    for place in 0..count {
        if let Some(letter) = mail.look(process, place) {
            floors.lower(process, letter.message.time);
        }
    }
}
