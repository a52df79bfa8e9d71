//! The next message, which is updated with each letter that is tallied.
ghost use Rattle.std.specs.Prelude.{◌≡◌, ◌≢◌, ◌∷◌, List, true};
ghost use Rattle.std.specs.Option.{option_copied};
ghost use Rattle.virtual_time.specs.Law.{lesser};
ghost use Rattle.vlink.specs.Order.{message_order};
ghost use Rattle.vlink.specs.Letters.{Letter};
ghost use Rattle.antimessages.specs.Counting.{change_by, is_after, present_after, HaveSameCounts};
ghost use Rattle.antimessages.specs.declared.tally.Change.TheVariants.{Same};

use crate::occurrence::{is_before, occurrence_order_law};
use crate::tally::{Change, Tally};
use vlink::{Letter, Message};

impl Tally {
    /// Returns what `next_after` would return once this letter is tallied, if `next` was its result before. It searches the counts only if
    /// the letter made that message absent. `change` is what the letter did to its message, which comes after `newest` if `change` is not
    /// `Same`.
    pub fn next_with(
        &self,
        next: Option<Message>,
        letter: &Letter,
        change: Change,
        newest: Option<&Message>,
    ) -> Option<Message>
        ensures { (before : List Letter) → HaveSameCounts message_order self.now (letter.now ∷ before) →
            change ≡ change_by message_order letter.now before →
            (change ≢ Same → is_after message_order (option_copied newest.entry) letter.now.message ≡ true) →
            next ≡ present_after message_order (option_copied newest.entry) before →
            result ≡ present_after message_order (option_copied newest.entry) self.now }
    {
        occurrence_order_law();
        match change {
            Change::Same => next,
            Change::BecamePresent => Some(lesser(&letter.message, next)),
            Change::BecameAbsent => self.next_after(newest),
        }
    }
}

/// Returns the earlier of the message and the other one, if that exists.
fn lesser(message: &Message, other: Option<Message>) -> Message
    ensures { Some result ≡ lesser message_order message.now other }
{
    match other {
        Some(first) => {
            if is_before(&first, message) {
                first
            } else {
                *message
            }
        }
        None => *message,
    }
}
