//! When actors meet the laws of a simulation.
ghost use Rattle.virtual_time.specs.Law.{Laws};
ghost use Rattle.reverse.specs.Rules.{rules_of};
ghost use Rattle.reverse.specs.Setting.{Setting, simulation_of, IsLaidOut};

use crate::actor::Actor;
use crate::rules::actor_rules_law;

/// Actors that know their places meet the laws of a simulation. Each actor keeps its own part of them, so only the layout remains to be
/// checked.
pub fn actor_law<A: Actor>()
    ensures { (x : Setting A) → IsLaidOut (rules_of A.plain) A.number A.end A.is_placed x →
        Laws (simulation_of (rules_of A.plain) x) }
{
    actor_rules_law::<A>();
}
