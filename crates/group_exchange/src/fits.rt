//! Whether a group in hand is the group of the journal.
ghost use Rattle.std.specs.Prelude.{◌≡◌, ◌≤◌, ◌<◌, ℕ, ◌++◌, true, length};
ghost use Rattle.virtual_time.specs.Law.{AreDone, in_hand};
ghost use Rattle.reverse.specs.Rules.{rules_of};
ghost use Rattle.reverse.specs.Setting.{simulation_of};
ghost use Rattle.group_exchange.specs.Views.{block_of, in_group, is_of, mark_at, mark_of, world_after};
ghost use Rattle.group_exchange.specs.Keeps.{AreAsIn};
ghost use Rattle.group_exchange.specs.Effects.{block_in};

use crate::group::Group;
use crate::groups::GroupExchange;
use crate::run_of::GroupRun;
use halves::agree_law;
use reverse::Actor;

impl<R: Actor, J: GroupRun<R>> GroupExchange<R, J> {
    /// Whether both marks are equal. They always are, since they are the halves of one value, and each call writes both. So the group in
    /// hand is what the journal and then its block make of its processes, and each step of the block is enabled there. Takes no memory.
    pub fn fits(&self, group: &Group<R, J>) -> bool
        ensures yes { result ≡ true }
        ensures same { mark_at group.now ≡ mark_of self.now.marks group.now.number }
        ensures within { group.now.number < length J.names }
        ensures seen { group.now.seen ≤ (world_after (simulation_of (rules_of R.plain) J.setting) self.now.steps).gvt }
        ensures enabled { AreDone (simulation_of (rules_of R.plain) J.setting) (block_of group.now)
            (in_hand (simulation_of (rules_of R.plain) J.setting) group.now.seen (world_after (simulation_of (rules_of R.plain) J.setting) self.now.steps)) }
        ensures parts { (p : ℕ) → is_of J.owners group.now.number p ≡ true →
            (world_after (simulation_of (rules_of R.plain) J.setting) (self.now.steps ++ block_in (simulation_of (rules_of R.plain) J.setting) J.owners self.now group.now)).parts p
            ≡ (in_group (simulation_of (rules_of R.plain) J.setting) group.now).parts p }
    {
        self.join_law(group);
        true
    }

    /// One half of a mark states what the other half states, so both refer to one moment of the journal.
    pub(crate) fn join_law(&self, group: &Group<R, J>)
        ensures same { mark_at group.now ≡ mark_of self.now.marks group.now.number }
        ensures within { group.now.number < length J.names }
        ensures seen { group.now.seen ≤ (world_after (simulation_of (rules_of R.plain) J.setting) self.now.steps).gvt }
        ensures stands { AreAsIn (is_of J.owners group.now.number) (world_after (simulation_of (rules_of R.plain) J.setting) group.now.last)
            (world_after (simulation_of (rules_of R.plain) J.setting) self.now.steps) }
        ensures enabled { AreDone (simulation_of (rules_of R.plain) J.setting) (block_of group.now)
            (in_hand (simulation_of (rules_of R.plain) J.setting) group.now.seen (world_after (simulation_of (rules_of R.plain) J.setting) self.now.steps)) }
        ensures parts { (p : ℕ) → is_of J.owners group.now.number p ≡ true →
            (world_after (simulation_of (rules_of R.plain) J.setting) (self.now.steps ++ block_in (simulation_of (rules_of R.plain) J.setting) J.owners self.now group.now)).parts p
            ≡ (in_group (simulation_of (rules_of R.plain) J.setting) group.now).parts p }
    {
        let _limit = self.limit;
        let half = &self.marks[usize::from(group.number)];
        agree_law(half, &group.mark);
    }
}
