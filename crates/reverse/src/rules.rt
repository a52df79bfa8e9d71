//! What an actor contributes to the laws of virtual time.
ghost use Rattle.std.specs.Prelude.{◌≡◌, ◌+◌, ◌<◌, ◌≤◌, length};
ghost use Rattle.vlink.specs.Order.{message_order};
ghost use Rattle.vlink.specs.declared.message.Message.{Message};
ghost use Rattle.virtual_time.specs.Law.{IsOrder, IsIn, IsNumbered};
ghost use Rattle.reverse.specs.Rules.{rules_of};

use crate::actor::Actor;
use vlink::order_law;

/// The rules of an actor meet what the laws of virtual time require of one actor. Its order of messages is total, and time decides first.
/// What an event sends has the actor as its sender, is later than the event, is not later than the end time, and is numbered on from the
/// counter. Undoing an event restores the state before it.
pub fn actor_rules_law<R: Actor>()
    ensures order { IsOrder message_order }
    ensures sender { (s : R) (e m : Message) → IsIn message_order m ((rules_of R.plain).sends s e) → m.sender ≡ R.number s }
    ensures later { (s : R) (e m : Message) → R.is_placed s → IsIn message_order m ((rules_of R.plain).sends s e) → e.time < m.time }
    ensures in_time { (s : R) (e m : Message) → IsIn message_order m ((rules_of R.plain).sends s e) → m.time ≤ R.end s }
    ensures numbered { (s : R) (e : Message) → IsNumbered (λ m. m.number) (R.plain.counter s) ((rules_of R.plain).sends s e) }
    ensures counter_grows { (s : R) (e : Message) → R.plain.counter (R.plain.after s e) ≡ R.plain.counter s + length ((rules_of R.plain).sends s e) }
    ensures undoes { (s : R) (e : Message) → R.plain.before (R.plain.after s e) e (R.plain.saves s e) ≡ s }
{
    order_law();
}
