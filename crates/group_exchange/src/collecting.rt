//! A group takes the letters that are in transit to it.
ghost use Rattle.std.specs.Prelude.{List, ◌≡◌, ◌≢◌, ◌<◌, ◌≤◌, ◌+◌, ◌⊎◌, ℕ, [], ◌∷◌, ◌++◌, set, length, slice_get, All, IfOk, OnOk, OnErr, IfErr, Err, true};
ghost use Rattle.std.specs.Option.{option_map};
ghost use Rattle.vlink.specs.declared.message.Message.{Message};
ghost use Rattle.vlink.specs.Letters.{Letter};
ghost use Rattle.vlink.specs.Order.{message_order};
ghost use Rattle.virtual_time.specs.Law.{World, lowest, times_of};
ghost use Rattle.reverse.specs.Rules.{rules_of};
ghost use Rattle.reverse.specs.Setting.{Setting, simulation_of};
ghost use Rattle.journal.specs.declared.fault.PoolFault.TheVariants.{OutOfMemory, JournalFull};
ghost use Rattle.group_hand.specs.Hands.{IsAsBefore, StandsForGroup, is_ours};
ghost use Rattle.group_exchange.specs.Views.{mark_at, with_letters, world_after};
ghost use Rattle.group_exchange.specs.Effects.{AreWaiting, CanDoMore, Collects, IsGroupAsBefore, TookLetters};

use crate::group::Group;
use crate::groups::GroupExchange;
use crate::mark::stand_here;
use crate::run_of::GroupRun;
use crate::steps::Steps;
use group_hand::{Hand, hand_law};
use gvt::Floors;
use journal::PoolFault;
use reverse::{Actor, actor_law};
use vlink::Letter;

/// The tray gets room for this number of letters more than are taken, so that it is not copied to a larger place while the first of them arrive.
const SPARE: usize = 64;

/// Moves all letters in transit to a group to the tray of its hand, with a step in the journal for each. Both marks note the length of the
/// journal then, and the GVT of the exchange. Returns how many letters were taken.
///
/// Any refusal leaves both as they were. `JournalFull`: exactly where the steps would pass the limit, which is looked at before any growth.
/// So more steps can be done than the limit allows.
pub fn collect<R: Actor, J: GroupRun<R>>(
    group: &mut Group<R, J>,
    exchange: &mut GroupExchange<R, J>,
) -> Result<u64, PoolFault>
    requires posted { group.old.held.flow.words ≡ [] }
    ensures ok { IfOk result (λ count. Collects (simulation_of (rules_of R.plain) J.setting) J.owners exchange.old group.old exchange.new group.new count) }
    ensures unchanged { OnErr result ((exchange.new ≡ exchange.old) × IsGroupAsBefore group.old group.new) }
    ensures full { result ≡ Err JournalFull → (letters : List Letter)
        × AreWaiting (simulation_of (rules_of R.plain) J.setting) J.owners exchange.old group.old letters × (exchange.old.limit < length exchange.old.steps + length letters) }
    ensures limited { (result ≡ Err JournalFull → ⊥) → (letters : List Letter)
        × AreWaiting (simulation_of (rules_of R.plain) J.setting) J.owners exchange.old group.old letters × (length exchange.old.steps + length letters ≤ exchange.old.limit) }
    ensures long { result ≡ Err JournalFull → CanDoMore (simulation_of (rules_of R.plain) J.setting) exchange.old.limit }
    ensures faults { IfErr result (λ fault. (fault ≡ OutOfMemory) ⊎ (fault ≡ JournalFull)) }
{
    actor_law::<R>();
    hand_law::<R>();
    exchange.join_law(group);
    let count = exchange.boxes.letters(group.number).len();
    if count == 0 {
        stand_here(
            &mut group.standing,
            &mut exchange.marks,
            &mut group.mark,
            group.number,
            &exchange.journal,
            exchange.gvt,
        );
        return Ok(0);
    }
    if exchange.limit - exchange.journal.len() < count as u64 {
        return Err(PoolFault::JournalFull);
    }
    if let Err(fault) = reserve_collect(&mut group.hand, &mut exchange.journal, count) {
        return Err(fault);
    }
    let letters = exchange.boxes.letters(group.number);
    exchange.journal.collect(&exchange.boxes, group.number);
    deliver_all(&mut group.hand, letters);
    lower_floor(&mut exchange.floors, group.number, letters);
    exchange.boxes.clear(group.number);
    stand_here(
        &mut group.standing,
        &mut exchange.marks,
        &mut group.mark,
        group.number,
        &exchange.journal,
        exchange.gvt,
    );
    Ok(count as u64)
}

/// Makes room for `count` letters in the tray, and for as many steps in the journal.
fn reserve_collect<R: Actor>(
    hand: &mut Hand<R>,
    journal: &mut Steps,
    count: usize,
) -> Result<(), PoolFault>
    ensures same { IsAsBefore hand.old hand.new }
    ensures room { OnOk result (count ≤ hand.new.flow.room) }
    ensures steps { journal.new.steps ≡ journal.old.steps }
    ensures keeps { journal.new.keeps ≡ journal.old.keeps }
    ensures step_room { OnOk result (count ≤ journal.new.room) }
    ensures memory { IfErr result (λ fault. fault ≡ OutOfMemory) }
{
    if hand.reserve_letters(count.saturating_add(SPARE)).is_err() {
        return Err(PoolFault::OutOfMemory);
    }
    journal.reserve(count)
}

/// Puts these letters at the back of the tray. The room for them was made before.
fn deliver_all<R: Actor>(hand: &mut Hand<R>, letters: &[Letter])
    requires ours { All (λ l. is_ours hand.old.members l.message.receiver ≡ true) letters.now }
    requires room { length letters.now ≤ hand.old.flow.room }
    ensures told { hand.new ≡ record hand.old { flow = record hand.old.flow { tray = hand.old.flow.tray ++ letters.now; room = hand.new.flow.room } } }
    ensures stands { (x : Setting R) (v : World Message R) → All (λ l. l.message.time ≤ x.until) letters.now → StandsForGroup (rules_of R.plain) R.is_value x v hand.old →
        StandsForGroup (rules_of R.plain) R.is_value x (with_letters message_order letters.now v) hand.new }
{
    for letter in letters {
        hand.deliver_reserved(*letter);
    }
}

/// Lowers the floor of a group to the least time of these letters, if that is lower.
fn lower_floor(floors: &mut Floors, group: u16, letters: &[Letter])
    requires within { group < length floors.old.floors }
    ensures floor { slice_get floors.new.floors group
        ≡ option_map (λ floor. lowest floor (times_of message_order letters.now)) (slice_get floors.old.floors group) }
    ensures others { (g : ℕ) → g ≢ group → slice_get floors.new.floors g ≡ slice_get floors.old.floors g }
    ensures groups { length floors.new.floors ≡ length floors.old.floors }
    ensures until { floors.new.until ≡ floors.old.until }
{
    for letter in letters {
        floors.lower(group, letter.message.time);
    }
}
