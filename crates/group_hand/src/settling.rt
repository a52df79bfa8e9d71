//! The front letter of the tray arrives, whether it comes late or not.
ghost use Rattle.std.specs.Prelude.{◌≡◌, ℕ, ◌+◌, ◌<◌, ◌≤◌, [], ◌∷◌, List, OnOk, OnErr, length, map, vec_len, vec_capacity};
ghost use Rattle.vlink.specs.declared.message.Message.{Message};
ghost use Rattle.vlink.specs.Letters.{Letter};
ghost use Rattle.virtual_time.specs.Law.{minus_of};
ghost use Rattle.reverse.specs.Rules.{rules_of};
ghost use Rattle.group_hand.specs.Arriving.{WentOn};
ghost use Rattle.group_queues.specs.Block.{AddsLetters};
ghost use Rattle.group_hand.specs.Hands.{DoesSent};
ghost use Rattle.group_hand.specs.Passing.{held};
ghost use Rattle.group_queues.specs.Rows.{Sealed};
ghost use Rattle.group_hand.specs.Undoing.{CameTo, Settled};
ghost use Rattle.group_queues.specs.DoneEvents.{HasRoomFor, sent_in};

use crate::members::is_ours;
use crate::rollback::{Undoing, roll_back};
use antimessages::OutOfMemory;
use group_queues::{DoneEvents, Letters, Way};
use reverse::{Actor, actor_rules_law};
use vlink::{Letter, Message};

/// The front letter of the tray, which is this one, arrives. If it comes late, its receiver rolls back to it, and what the undone events
/// sent is taken back. The room for all that results was made before. A refusal changes nothing.
pub(crate) fn arrive<R: Actor>(
    members: &mut [Option<R>],
    done: &mut DoneEvents<R::Record>,
    undoing: &mut Undoing<R::Record>,
    letters: &mut Letters,
    letter: &Letter,
) -> Result<(), OutOfMemory>
    requires front { (rest : List Letter) × (letters.old.tray ≡ letter.now ∷ rest) }
    requires empty { undoing.old.aside.events ≡ [] }
    requires none_back { undoing.old.back.items ≡ [] }
    requires came { (p : ℕ) → CameTo (rules_of R.plain) R.is_value members.old done.old.events p }
    requires room { length done.old.events + sent_in done.old.events + 2 ≤ letters.old.room }
    requires space { HasRoomFor done.old.events undoing.old.aside }
    requires sends { vec_len undoing.old.back + sent_in done.old.events ≤ vec_capacity undoing.old.back }
    ensures len { length members.new ≡ length members.old }
    ensures did { OnOk result ((rows : Sealed) → DoesSent (rules_of R.plain) R.is_value (held members.old done.old.events rows letters.old) [] (held members.new done.new.events rows letters.new) []) }
    ensures came { (p : ℕ) → CameTo (rules_of R.plain) R.is_value members.new done.new.events p }
    ensures words { OnOk result (AddsLetters letters.old.words letters.new.words) }
    ensures fewer { OnOk result (length letters.new.tray + sent_in done.new.events < length letters.old.tray + sent_in done.old.events) }
    ensures empty { undoing.new.aside.events ≡ [] }
    ensures none_back { undoing.new.back.items ≡ [] }
    ensures members { OnErr result (members.new ≡ members.old) }
    ensures done { OnErr result (done.new.events ≡ done.old.events) }
    ensures letters { OnErr result (letters.new ≡ record letters.old { room = letters.new.room }) }
{
    actor_rules_law::<R>();
    let way = letters.count(letter, done.has(&letter.message))?;
    letters.take_front(letter);
    settle(members, done, undoing, letters, &letter.message, way);
    take_back_all(members, letters, &mut undoing.back);
    Ok(())
}

/// Puts the message of a letter that arrived into the queue, or undoes it. Before that its receiver rolls back to it.
fn settle<R: Actor>(
    members: &mut [Option<R>],
    done: &mut DoneEvents<R::Record>,
    undoing: &mut Undoing<R::Record>,
    letters: &mut Letters,
    message: &Message,
    way: Way,
)
    requires empty { undoing.old.aside.events ≡ [] }
    requires none_back { undoing.old.back.items ≡ [] }
    requires came { (p : ℕ) → CameTo (rules_of R.plain) R.is_value members.old done.old.events p }
    requires room { length done.old.events + 1 ≤ letters.old.room }
    requires space { HasRoomFor done.old.events undoing.old.aside }
    requires sends { vec_len undoing.old.back + sent_in done.old.events ≤ vec_capacity undoing.old.back }
    ensures settled { Settled (rules_of R.plain) message.now
        (record { members = members.old; done = done.old.events; aside = []; queue = letters.old.queue; back = [] })
        (record { members = members.new; done = done.new.events; aside = []; queue = letters.new.queue; back = undoing.new.back.items }) way }
    ensures came { (p : ℕ) → CameTo (rules_of R.plain) R.is_value members.new done.new.events p }
    ensures others { letters.new ≡ record letters.old { queue = letters.new.queue; room = letters.new.room } }
    ensures room { letters.old.room ≤ letters.new.room + length done.old.events + 1 }
    ensures empty { undoing.new.aside.events ≡ [] }
{
    match way {
        Way::Beside => {}
        Way::Leaves => {}
        Way::Joins => {
            roll_back(members, done, undoing, letters, message);
            letters.wait_again(message);
        }
        Way::Undoes => {
            roll_back(members, done, undoing, letters, message);
            letters.take_out(message);
        }
    }
}

/// Takes back what undone events sent, the first of `back` first. The room for the antimessages was made before.
fn take_back_all<R: Actor>(members: &[Option<R>], letters: &mut Letters, back: &mut Vec<Message>)
    requires { length back.old.items ≤ letters.old.room }
    ensures went { WentOn members.now (map minus_of back.old.items) letters.old letters.new }
    ensures queue { letters.new.queue ≡ letters.old.queue }
    ensures extra { letters.new.extra ≡ letters.old.extra }
    ensures none_back { back.new.items ≡ [] }
{
    for place in 0..back.len() {
        let message = &back[place];
        letters.take_back(message, is_ours(members, message.receiver));
    }
    back.clear();
}
