//! What holds for each group.
ghost use Rattle.vlink.specs.declared.message.Message.{Message};
ghost use Rattle.virtual_time.specs.Law.{World};
ghost use Rattle.reverse.specs.Rules.{rules_of};
ghost use Rattle.reverse.specs.Setting.{Setting};
ghost use Rattle.group_hand.specs.Hands.{HasDoneNothing, Held, IsAsBefore, IsOpened, StandsForGroup};

use reverse::{Actor, actor_rules_law};

/// What holds for each group, whatever calls do.
///
/// - `as_before`: a group that is as before, except for its room, represents what it represented.
/// - `opens`: a group that has done nothing represents its members in their opening states.
pub fn hand_law<R: Actor>()
    ensures as_before { (old new : Held R R.Record) → IsAsBefore old new → (x : Setting R) (v : World Message R) →
        StandsForGroup (rules_of R.plain) R.is_value x v old → StandsForGroup (rules_of R.plain) R.is_value x v new }
    ensures opens { (hand : Held R R.Record) → HasDoneNothing hand → (x : Setting R) (v : World Message R) → IsOpened x v hand → StandsForGroup (rules_of R.plain) R.is_value x v hand }
{
    actor_rules_law::<R>();
}
