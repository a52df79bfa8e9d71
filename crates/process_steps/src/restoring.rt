//! Tallies the messages of done events again, beside the letters that are tallied, before the events are undone.
ghost use Rattle.std.specs.Prelude.{◌≡◌, ◌≤◌, ◌++◌, ◌∷◌, List, map, drop, length, OnOk, OnErr, IfErr};
ghost use Rattle.vlink.specs.declared.message.Message.{Message};
ghost use Rattle.virtual_time.specs.Law.{IsIn, plus_of, pluses, minuses};
ghost use Rattle.vlink.specs.Order.{message_order};
ghost use Rattle.vlink.specs.Letters.{Letter};
ghost use Rattle.antimessages.specs.Counting.{HaveSameCounts};
ghost use Rattle.antimessages.specs.Occurrences.{IsTally};

use crate::event::Event;
use antimessages::{OutOfMemory, Tally};
use std::collections::VecDeque;
use vlink::{Letter, Sign, order_law};

/// Tallies the messages of the done events from this place on, as they must be once these are undone, and the letter. A refusal changes
/// nothing: it takes what was tallied out again, which needs no memory.
pub fn tally_again<K: Copy>(
    done: &VecDeque<Event<K>>,
    place: usize,
    tally: &mut Tally,
    letter: Letter,
) -> Result<(), OutOfMemory>
    requires place { place ≤ length done.now.items }
    requires not_owed { (m : Message) → IsIn message_order m (map (λ e. e.message) done.now.items) → minuses message_order m tally.old ≤ pluses message_order m tally.old }
    ensures counts { OnOk result (HaveSameCounts message_order tally.new (letter ∷ (map (λ e. plus_of e.message) (drop place done.now.items) ++ tally.old))) }
    ensures unchanged { OnErr result (tally.new ≡ tally.old) }
{
    tally.counts_law();
    match tally_all(done, place, tally, letter) {
        Ok(()) => Ok(()),
        Err(tallied) => {
            take_out(done, tallied, tally);
            Err(OutOfMemory)
        }
    }
}

/// Tallies the messages of the done events from this place on, and then the letter. If memory is refused, returns the place from which on
/// messages are tallied.
fn tally_all<K: Copy>(
    done: &VecDeque<Event<K>>,
    place: usize,
    tally: &mut Tally,
    letter: Letter,
) -> Result<(), usize>
    requires { place ≤ length done.now.items }
    ensures counts { OnOk result (HaveSameCounts message_order tally.new (letter ∷ (map (λ e. plus_of e.message) (drop place done.now.items) ++ tally.old))) }
    ensures within { IfErr result (λ tallied. tallied ≤ length done.now.items) }
    ensures tallied { IfErr result (λ tallied. HaveSameCounts message_order tally.new (map (λ e. plus_of e.message) (drop tallied done.now.items) ++ tally.old)) }
{
    order_law();
    let tallied = tally_back(done, place, tally);
    if tallied != place {
        return Err(tallied);
    }
    match tally.add(letter) {
        Ok(_) => Ok(()),
        Err(_) => Err(tallied),
    }
}

/// Tallies the messages of the done events, from the newest back to this place, or until memory is refused. Returns the place of the last
/// one that is tallied.
fn tally_back<K: Copy>(done: &VecDeque<Event<K>>, place: usize, tally: &mut Tally) -> usize
    requires { place ≤ length done.now.items }
    ensures within { result ≤ length done.now.items }
    ensures counts { HaveSameCounts message_order tally.new (map (λ e. plus_of e.message) (drop result done.now.items) ++ tally.old) }
{
    order_law();
    let all = done.len();
    for tallied in 0..all - place {
        let next = all - 1 - tallied;
        let letter = Letter {
            message: done[next].message,
            sign: Sign::Plus,
        };
        match tally.add(letter) {
            Ok(_) => {}
            Err(_) => return next + 1,
        }
    }
    place
}

/// Takes the messages of the done events from this place on out of the tally, so that it is what it was before.
fn take_out<K: Copy>(done: &VecDeque<Event<K>>, place: usize, tally: &mut Tally)
    requires { place ≤ length done.now.items }
    ensures { (before : List Letter) → IsTally before →
        HaveSameCounts message_order tally.old (map (λ e. plus_of e.message) (drop place done.now.items) ++ before) →
        ((m : Message) → IsIn message_order m (map (λ e. e.message) done.now.items) → minuses message_order m before ≤ pluses message_order m before) →
        tally.new ≡ before }
{
    order_law();
    for taken in place..done.len() {
        tally.take_present(&done[taken].message);
    }
    tally.counts_law();
}
