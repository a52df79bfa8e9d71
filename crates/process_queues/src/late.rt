//! The place of a message among the done events, and tallying these again from there on.
ghost use Rattle.std.specs.Prelude.{◌≡◌, ◌≤◌, ◌++◌, ◌∷◌, IsTrue, false, length, map, OnOk, OnErr};
ghost use Rattle.vlink.specs.declared.message.Message.{Message};
ghost use Rattle.vlink.specs.Order.{message_order};
ghost use Rattle.virtual_time.specs.Law.{IsIn, IsAscending, before, times_in, plus_of, pluses, minuses};
ghost use Rattle.antimessages.specs.Counting.{HaveSameCounts};
ghost use Rattle.process_queues.specs.Arriving.{done_since};
ghost use Rattle.reverse.specs.Rules.{rules_of};

use crate::past::Past;
use antimessages::{OutOfMemory, Tally};
use process_steps::{Event, is_before, tally_again};
use reverse::{Actor, actor_rules_law};
use std::collections::VecDeque;
use vlink::{Letter, Message, order_law};

impl<R: Actor> Past<R> {
    /// Whether a done event has this message. It would be the first one that does not come before the message.
    pub(crate) fn has_done(&self, message: &Message) -> bool
        requires { IsAscending message_order (map (λ e. e.message) self.now.done) }
        ensures done { IsTrue result → times_in message_order message.now (map (λ e. e.message) self.now.done) ≡ 1 }
        ensures not_done { result ≡ false → times_in message_order message.now (map (λ e. e.message) self.now.done) ≡ 0 }
    {
        actor_rules_law::<R>();
        let place = done_before(&self.done, message);
        match self.done.get(place) {
            Some(event) => !is_before(message, &event.message),
            None => false,
        }
    }

    /// Tallies the messages of the done events that do not come before the letter's, and the letter. A refusal changes nothing: it takes
    /// what was tallied out again, which needs no memory.
    pub(crate) fn count_again(&self, tally: &mut Tally, letter: Letter) -> Result<(), OutOfMemory>
        requires ascending { IsAscending message_order (map (λ e. e.message) self.now.done) }
        requires not_owed { (m : Message) → IsIn message_order m (map (λ e. e.message) self.now.done) → minuses message_order m tally.old ≤ pluses message_order m tally.old }
        ensures counts { OnOk result (HaveSameCounts message_order tally.new (letter ∷ (map (λ e. plus_of e.message) (done_since letter.message self.now.done) ++ tally.old))) }
        ensures unchanged { OnErr result (tally.new ≡ tally.old) }
    {
        tally_again(
            &self.done,
            done_before(&self.done, &letter.message),
            tally,
            letter,
        )
    }
}

/// Returns how many of these done events come before the message. It looks from the newest on, since most late letters are only a little
/// late.
fn done_before<K: Copy>(done: &VecDeque<Event<K>>, message: &Message) -> usize
    requires { IsAscending message_order (map (λ e. e.message) done.now.items) }
    ensures { result ≡ length (before message_order message.now (map (λ e. e.message) done.now.items)) }
{
    order_law();
    let events = done.len();
    for late in 0..events {
        let place = events - 1 - late;
        if is_before(&done[place].message, message) {
            return place + 1;
        }
    }
    0
}
