//! Whether a process in hand is the process of the journal.
ghost use Rattle.std.specs.Prelude.{◌≡◌, true, map};
ghost use Rattle.virtual_time.specs.Law.{local, after_moves, own_in, reach, AreEnabled};
ghost use Rattle.reverse.specs.Rules.{rules_of};
ghost use Rattle.reverse.specs.Setting.{simulation_of};
ghost use Rattle.process_exchange.specs.Views.{mark_of};

use crate::exchange::Exchange;
use crate::held::Held;
use crate::run_of::ActorRun;
use halves::agree_law;
use reverse::Actor;

impl<R: Actor, J: ActorRun<R>> Exchange<R, J> {
    /// Whether both marks are equal. They always are, since they are the halves of one value, and each call writes both. So the process in
    /// hand is what the journal and then its block make of it, and each step of the block is enabled there. Takes no memory.
    pub fn fits(&self, held: &Held<R, J>) -> bool
        ensures yes { result ≡ true }
        ensures same { held.now.mark ≡ mark_of self.now.marks held.now.number }
        ensures part { held.now.part ≡ after_moves (rules_of R.plain) (J.setting.opening held.now.number) held.now.block
            ((reach (simulation_of (rules_of R.plain) J.setting) self.now.entries).parts held.now.number) }
        ensures enabled { AreEnabled (simulation_of (rules_of R.plain) J.setting) (J.setting.opening held.now.number)
            (reach (simulation_of (rules_of R.plain) J.setting) self.now.entries).gvt held.now.block
            ((reach (simulation_of (rules_of R.plain) J.setting) self.now.entries).parts held.now.number) }
        ensures own { held.now.own ≡ own_in held.now.number self.now.entries }
    {
        self.join_law(held);
        true
    }

    /// One half of a mark states what the other half states, so both refer to one entry.
    pub(crate) fn join_law(&self, held: &Held<R, J>)
        ensures same { held.now.mark ≡ mark_of self.now.marks held.now.number }
        ensures part { held.now.part ≡ after_moves (rules_of R.plain) (J.setting.opening held.now.number) held.now.block
            ((reach (simulation_of (rules_of R.plain) J.setting) self.now.entries).parts held.now.number) }
        ensures enabled { AreEnabled (simulation_of (rules_of R.plain) J.setting) (J.setting.opening held.now.number)
            (reach (simulation_of (rules_of R.plain) J.setting) self.now.entries).gvt held.now.block
            ((reach (simulation_of (rules_of R.plain) J.setting) self.now.entries).parts held.now.number) }
        ensures own { held.now.own ≡ own_in held.now.number self.now.entries }
    {
        let _limit = self.limit;
        let half = &self.marks[usize::from(held.number)];
        agree_law(half, &held.mark);
    }
}
