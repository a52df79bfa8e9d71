//! What a group in hand, and the exchange, can be asked.
ghost use Rattle.std.specs.Prelude.{◌≡◌, ◌≢◌, ◌<◌, ◌≤◌, true, false, [], length, slice_get, All, Contains, IfSome, IfNone};
ghost use Rattle.vlink.specs.declared.message.Message.{Message};
ghost use Rattle.virtual_time.specs.Law.{AreDone, start};
ghost use Rattle.reverse.specs.Rules.{rules_of};
ghost use Rattle.reverse.specs.Setting.{simulation_of};
ghost use Rattle.group_hand.specs.Hands.{IsAsBefore};

use crate::group::Group;
use crate::groups::GroupExchange;
use crate::run_of::GroupRun;
use group_hand::hand_law;
use reverse::Actor;
use vlink::{Letter, Step, Time};

impl<R: Actor, J: GroupRun<R>> Group<R, J> {
    /// Whether its block has a word: something that it did is not posted.
    pub fn has_block(&self) -> bool
        ensures some { result ≡ true → self.now.held.flow.words ≢ [] }
        ensures none { result ≡ false → self.now.held.flow.words ≡ [] }
    {
        let steps = self.hand.block().steps();
        0 < steps
    }

    /// Returns the GVT that it saw, in ns.
    pub fn gvt_seen(&self) -> Time
        ensures { result ≡ self.now.seen }
    {
        self.standing.seen
    }

    /// Returns the moment, in ns, before which rows of its committed events may have left. None has left if it is 0.
    pub fn gone_before(&self) -> Time
        ensures { result ≡ self.now.gone }
    {
        self.gone
    }

    /// Returns the letters for other groups that wait to be posted, in order.
    pub fn letters_abroad(&self) -> &[Letter]
        ensures { result.now ≡ self.now.held.flow.abroad }
    {
        self.hand.letters_abroad()
    }

    /// Returns the moment of the first message of its queue, in ns, if any. Letters that are still in the tray do not count.
    pub fn next_time(&mut self) -> Option<Time>
        ensures same { IsAsBefore self.old.held self.new.held }
        ensures others { self.new ≡ record self.old { held = self.new.held } }
        ensures among { IfSome result (λ time. (m : Message) × Contains self.old.held.flow.queue m × (m.time ≡ time)) }
        ensures least { IfSome result (λ time. All (λ m. time ≤ m.time) self.old.held.flow.queue) }
        ensures none { IfNone result (self.old.held.flow.queue ≡ []) }
    {
        hand_law::<R>();
        self.hand.next_time()
    }
}

impl<R: Actor, J: GroupRun<R>> GroupExchange<R, J> {
    /// Returns the number of the group of this process, or none if the process does not exist.
    pub fn owner(&self, process: u16) -> Option<u16>
        ensures is { result ≡ slice_get J.owners process }
        ensures within { IfSome result (λ group. group < length J.names) }
    {
        self.boxes.owner(process)
    }

    /// Returns the steps of a stored journal, in order.
    pub fn step_list(&self) -> &[Step]
        requires { J.keeps ≡ true }
        ensures steps { result.now ≡ self.now.steps }
        // each could be done where it stands
        ensures enabled { AreDone (simulation_of (rules_of R.plain) J.setting) result.now (start (simulation_of (rules_of R.plain) J.setting)) }
    {
        self.journal.list()
    }
}
