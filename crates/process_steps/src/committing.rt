//! Which done events can be committed.
ghost use Rattle.std.specs.Prelude.{◌≡◌, ◌+◌, ◌==◌, ◌&&◌, ◌+ℤ◌, nat_lt, pos, List};
ghost use Rattle.virtual_time.specs.Law.{pluses, minuses};
ghost use Rattle.vlink.specs.Order.{message_order};
ghost use Rattle.vlink.specs.Letters.{Letter};
ghost use Rattle.antimessages.specs.Counting.{signed_count};

use antimessages::Tally;
use vlink::{Message, Time};

/// Whether a done event with this message can be committed: it is earlier than the moment, in ns, and its signed count is 1. The tally does
/// not contain the done events.
pub fn is_committable(tally: &Tally, moment: Time, message: &Message) -> bool
    ensures { (all : List Letter) → signed_count message_order message.now all ≡ signed_count message_order message.now tally.now +ℤ pos 1 →
        result ≡ (nat_lt message.now.time moment && (pluses message_order message.now all == minuses message_order message.now all + 1)) }
{
    message.time < moment && counts_once(tally, message)
}

/// Whether the signed count of a done message is 1. The tally does not contain the done events.
pub fn counts_once(tally: &Tally, message: &Message) -> bool
    ensures { (all : List Letter) → signed_count message_order message.now all ≡ signed_count message_order message.now tally.now +ℤ pos 1 →
        result ≡ (pluses message_order message.now all == minuses message_order message.now all + 1) }
{
    tally.is_zero(message)
}
