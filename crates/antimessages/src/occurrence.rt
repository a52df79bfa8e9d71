//! The letters of a message that count, numbered by ordinals, and their order.
ghost use Rattle.std.specs.Prelude.{◌≡◌, ◌↔◌, IsTrue, refl};
ghost use Rattle.std.specs.Cmp.{IsTotalOrder, partial_equiv_from_equiv, eq_by_cmp_equiv, partial_order_from_total};
ghost use Rattle.std.specs.Ordering.{eq_by_cmp, as_partial_cmp};
ghost use Rattle.std.specs.declared.cmp.Ordering.TheVariants.{Equal};
ghost use Rattle.vlink.specs.declared.message.Message.{Message};
ghost use Rattle.vlink.specs.Order.{message_cmp, message_order};
ghost use Rattle.virtual_time.specs.Law.{IsOrder};
ghost use Rattle.antimessages.specs.Occurrences.{occurrences_by, occurrence_cmp};
ghost use Rattle.antimessages.specs.Ordered.{occurrences_total};
ghost use Rattle.vlink.specs.contracts.message.MessageOrd.TheImpl.Laws as message_total;

use std::cmp::Ordering;
use vlink::{Message, compare, message_order_law};

/// One of the letters of a message that count, with its number among them, from 0.
#[derive(Clone, Copy)]
pub(crate) struct Occurrence {
    pub(crate) message: Message,
    pub(crate) ordinal: u64,
}

impl PartialEq for Occurrence {
    ghost eq = { eq_by_cmp (occurrences_by ⟦<Message as Ord>⟧.cmp) };

    ghost laws = { partial_equiv_from_equiv (eq_by_cmp_equiv (occurrences_total message_total.total-law)) };

    fn eq(&self, other: &Self) -> bool {
        self.cmp(other) == Ordering::Equal
    }
}

impl Eq for Occurrence {
    ghost laws = { eq_by_cmp_equiv (occurrences_total message_total.total-law) };
}

impl PartialOrd for Occurrence {
    ghost partial_cmp = { as_partial_cmp (occurrences_by ⟦<Message as Ord>⟧.cmp) };

    ghost laws = { partial_order_from_total (occurrences_total message_total.total-law) };

    fn partial_cmp(&self, other: &Self) -> Option<Ordering> {
        Some(self.cmp(other))
    }
}

impl Ord for Occurrence {
    ghost cmp = { occurrences_by ⟦<Message as Ord>⟧.cmp };

    ghost total = { occurrences_total message_total.total-law };

    ghost matches_partial_cmp = { λ a b. refl };

    ghost matches_eq = { λ a b. refl };

    /// Most comparisons are of messages of two moments, and need no call.
    #[inline(always)]
    fn cmp(&self, other: &Self) -> Ordering {
        match compare(&self.message, &other.message) {
            Ordering::Equal => self.ordinal.cmp(&other.ordinal),
            order => order,
        }
    }
}

/// The order of occurrences, by message and then by ordinal, and that of messages.
pub(crate) fn occurrence_order_law()
    ensures written { ⟦<Occurrence as Ord>⟧.cmp ≡ occurrence_cmp }
    ensures occurrences { IsTotalOrder occurrence_cmp }
    ensures total { IsTotalOrder message_cmp }
    ensures exact { (a b : Message) → message_cmp a b ≡ Equal → a ≡ b }
    ensures messages { IsOrder message_order }
{
    message_order_law();
    total_order_law::<Occurrence>();
}

/// The order of a type is total.
fn total_order_law<T: Ord>()
    ensures { IsTotalOrder T.cmp }
{}

/// Whether the first message comes before the second.
pub(crate) fn is_before(first: &Message, second: &Message) -> bool
    ensures { result ≡ message_order.less first.now second.now }
{
    message_order_law();
    compare(first, second) == Ordering::Less
}

/// Whether the two are the same message. Most messages differ in their numbers.
pub(crate) fn is_same(first: &Message, second: &Message) -> bool
    ensures { IsTrue result ↔ (first.now ≡ second.now) }
{
    first.number == second.number && first == second
}
