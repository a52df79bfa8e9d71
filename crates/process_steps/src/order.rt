//! Messages in their order.
ghost use Rattle.vlink.specs.Order.{message_order};
ghost use Rattle.std.specs.Prelude.{◌≡◌};

use std::cmp::Ordering;
use vlink::{Message, compare, message_order_law};

/// Whether the first message comes before the second.
pub fn is_before(first: &Message, second: &Message) -> bool
    ensures { result ≡ message_order.less first.now second.now }
{
    message_order_law();
    compare(first, second) == Ordering::Less
}
