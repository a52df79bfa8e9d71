//! Which done events of a group are not committed yet.
ghost use Rattle.std.specs.Prelude.{◌≡◌, ◌↔◌, ◌<◌, ◌≤◌, ℕ, [], true, false, All, Contains, IfSome, IsTrue, Some, option_map, slice_get};
ghost use Rattle.vlink.specs.declared.message.Message.{Message};
ghost use Rattle.vlink.specs.Order.{message_order};
ghost use Rattle.virtual_time.specs.Law.{World, IsAscending, earlier};
ghost use Rattle.reverse.specs.Rules.{rules_of};
ghost use Rattle.reverse.specs.Setting.{Setting};
ghost use Rattle.group_queues.specs.DoneEvents.{messages_of};
ghost use Rattle.group_hand.specs.Hands.{StandsForGroup, is_ours};

use crate::hand::Hand;
use reverse::{Actor, actor_rules_law};
use vlink::Time;

impl<R: Actor> Hand<R> {
    /// Returns the moment of the oldest done event, in ns, if any.
    pub fn oldest(&self) -> Option<Time>
        ensures { result ≡ option_map (λ m. m.time) (slice_get (messages_of self.now.done) 0) }
    {
        self.done.oldest_time()
    }

    /// Whether each done event is committed.
    pub fn all_committed(&self) -> bool
        ensures { IsTrue result ↔ (self.now.done ≡ []) }
    {
        self.done.len() == 0
    }

    /// Whether some done event is earlier than the moment, in ns.
    ///
    /// - `members`: if none is, no event of any member is.
    pub fn is_done_before(&self, moment: Time) -> bool
        ensures yes { result ≡ true → (m : Message) × Contains (messages_of self.now.done) m × (m.time < moment) }
        ensures no { result ≡ false → IsAscending message_order (messages_of self.now.done) → All (λ m. moment ≤ m.time) (messages_of self.now.done) }
        ensures members { result ≡ false → (x : Setting R) (v : World Message R) → StandsForGroup (rules_of R.plain) R.is_value x v self.now →
            (p : ℕ) → is_ours self.now.members p ≡ true → earlier message_order moment (v.parts p).done ≡ [] }
    {
        actor_rules_law::<R>();
        is_early(self.done.oldest_time(), moment)
    }
}

/// Whether the oldest moment exists and is earlier than `moment`.
pub(crate) fn is_early(oldest: Option<Time>, moment: Time) -> bool
    ensures yes { result ≡ true → (t : ℕ) × (oldest ≡ Some t) × (t < moment) }
    ensures no { result ≡ false → IfSome oldest (λ t. moment ≤ t) }
{
    match oldest {
        Some(oldest) => oldest < moment,
        None => false,
    }
}
