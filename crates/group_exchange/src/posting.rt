//! A group puts what it did into the journal, and its letters into the boxes.
ghost use Rattle.std.specs.Prelude.{◌≡◌, ◌<◌, ◌≤◌, ◌+◌, ◌^◌, ◌⊎◌, ◌++◌, ℕ, [], map, length, All, OnOk, OnErr, IfErr, Err, true};
ghost use Rattle.vlink.specs.declared.message.Message.{Message};
ghost use Rattle.vlink.specs.Order.{message_order};
ghost use Rattle.virtual_time.specs.Law.{IsAscending, World, behind, in_hand};
ghost use Rattle.reverse.specs.Rules.{rules_of};
ghost use Rattle.reverse.specs.Setting.{Setting, simulation_of};
ghost use Rattle.journal.specs.declared.fault.PoolFault.TheVariants.{OutOfMemory, JournalFull};
ghost use Rattle.group_queues.specs.Block.{steps_told};
ghost use Rattle.group_queues.specs.DoneEvents.{messages_of};
ghost use Rattle.group_hand.specs.Hands.{FirstWaits, StandsForGroup};
ghost use Rattle.group_boxes.specs.Boxing.{HasRoom, box_of, for_group, waiting_for};
ghost use Rattle.group_exchange.specs.Views.{block_of};
ghost use Rattle.group_exchange.specs.Effects.{CanDoMore, CountsDone, Posts};

use crate::group::Group;
use crate::groups::GroupExchange;
use crate::mark::stand_here;
use crate::run_of::GroupRun;
use crate::steps::Steps;
use group_boxes::Boxes;
use group_hand::{Hand, hand_law};
use journal::PoolFault;
use reverse::{Actor, actor_law};
use std::alloc::Global;

/// Puts the block of a group into the journal and its letters for others into the boxes, and sets its floor to the least moment of what it
/// has left. If the block is empty it changes nothing.
///
/// Any refusal leaves both as they were. `JournalFull`: exactly where the steps would pass the limit, which is looked at before any growth.
/// So more steps can be done than the limit allows.
pub fn post<R: Actor, J: GroupRun<R>>(
    group: &mut Group<R, J>,
    exchange: &mut GroupExchange<R, J>,
) -> Result<(), PoolFault>
    ensures ok { OnOk result (Posts (simulation_of (rules_of R.plain) J.setting) J.owners exchange.old group.old exchange.new group.new) }
    ensures unchanged { OnErr result ((exchange.new ≡ exchange.old) × CountsDone group.old group.new) }
    ensures full { result ≡ Err JournalFull → (0 < length (block_of group.old)) × (exchange.old.limit < length exchange.old.steps + length (block_of group.old)) }
    ensures limited { exchange.old.limit < length exchange.old.steps + length (block_of group.old) → 0 < length (block_of group.old) → result ≡ Err JournalFull }
    ensures long { result ≡ Err JournalFull → CanDoMore (simulation_of (rules_of R.plain) J.setting) exchange.old.limit }
    ensures faults { IfErr result (λ fault. (fault ≡ OutOfMemory) ⊎ (fault ≡ JournalFull)) }
{
    actor_law::<R>();
    hand_law::<R>();
    let count = group.hand.block().steps();
    if count == 0 {
        return Ok(());
    }
    exchange.join_law(group);
    if exchange.limit - exchange.journal.len() < count {
        return Err(PoolFault::JournalFull);
    }
    if let Err(fault) = reserve_post(
        &mut group.hand,
        &mut exchange.boxes,
        &mut exchange.journal,
        count,
    ) {
        return Err(fault);
    }
    let floor = group.hand.floor(exchange.end);
    post_reserved(
        &mut group.hand,
        &mut exchange.boxes,
        &mut exchange.journal,
        group.alloc,
    );
    exchange.floors.set(group.number, floor);
    let seen = group.standing.seen;
    stand_here(
        &mut group.standing,
        &mut exchange.marks,
        &mut group.mark,
        group.number,
        &exchange.journal,
        seen,
    );
    Ok(())
}

/// Makes room for `count` steps in the journal, and in the boxes for the letters to others. Messages that are done already count beside, so that the
/// floor is exact.
fn reserve_post<R: Actor>(
    hand: &mut Hand<R>,
    boxes: &mut Boxes,
    journal: &mut Steps,
    count: u64,
) -> Result<(), PoolFault>
    ensures counted { hand.new ≡ record hand.old { flow = record hand.old.flow { queue = hand.new.flow.queue; extra = hand.new.flow.extra; room = hand.new.flow.room } } }
    ensures stands { (x : Setting R) (v : World Message R) → StandsForGroup (rules_of R.plain) R.is_value x v hand.old → StandsForGroup (rules_of R.plain) R.is_value x v hand.new }
    ensures waits { OnOk result (IsAscending message_order (messages_of hand.new.done) → FirstWaits message_order hand.new) }
    ensures boxes { boxes.new.boxes ≡ boxes.old.boxes }
    ensures owners { boxes.new.owners ≡ boxes.old.owners }
    ensures box_room { OnOk result (HasRoom (length hand.new.flow.abroad) boxes.new.rooms) }
    ensures steps { journal.new.steps ≡ journal.old.steps }
    ensures keeps { journal.new.keeps ≡ journal.old.keeps }
    ensures step_room { OnOk result (count ≤ journal.new.room) }
    ensures memory { IfErr result (λ fault. fault ≡ OutOfMemory) }
{
    if hand.count_done().is_err() {
        return Err(PoolFault::OutOfMemory);
    }
    boxes.reserve(hand.letters_abroad().len())?;
    journal.reserve(count as usize)
}

/// The block ends and joins the journal, each Take behind the letters that are on their way. Then the letters to others are on their way. There is room
/// for all.
fn post_reserved<R: Actor>(
    hand: &mut Hand<R>,
    boxes: &mut Boxes,
    journal: &mut Steps,
    alloc: Global,
)
    requires some { 0 < length (steps_told hand.old.flow.words) }
    requires kept { journal.old.keeps ≡ true → hand.old.flow.keeps ≡ true }
    requires step_room { length (steps_told hand.old.flow.words) ≤ journal.old.room }
    requires few { length journal.old.steps + length (steps_told hand.old.flow.words) < 2 ^ 63 }
    requires receivers { All (λ l. l.message.receiver < length boxes.old.owners) hand.old.flow.abroad }
    requires box_room { HasRoom (length hand.old.flow.abroad) boxes.old.rooms }
    ensures left { hand.new ≡ record hand.old { flow = record hand.old.flow { abroad = []; words = []; room = hand.new.flow.room } } }
    ensures stands { (x : Setting R) (v : World Message R) → StandsForGroup (rules_of R.plain) R.is_value x v hand.old →
        StandsForGroup (rules_of R.plain) R.is_value x (in_hand (simulation_of (rules_of R.plain) x) v.gvt v) hand.new }
    ensures posted { (g : ℕ) → g < length boxes.old.boxes → box_of boxes.new.boxes g ≡ box_of boxes.old.boxes g ++ for_group message_order boxes.old.owners g hand.old.flow.abroad }
    ensures boxes { length boxes.new.boxes ≡ length boxes.old.boxes }
    ensures owners { boxes.new.owners ≡ boxes.old.owners }
    ensures steps { journal.new.steps ≡ journal.old.steps ++ map (behind (waiting_for boxes.old)) (steps_told hand.old.flow.words) }
    ensures keeps { journal.new.keeps ≡ journal.old.keeps }
{
    let words = hand.next_block(alloc);
    journal.post(&words, boxes, words.steps());
    boxes.post_reserved(hand.letters_abroad());
    hand.clear_abroad();
}
