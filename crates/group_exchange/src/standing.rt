//! What a group in hand is in the small world of the laws of virtual time.
ghost use Rattle.std.specs.Prelude.{◌≡◌, ◌<◌, ◌≤◌, ℕ, true, [], Some};
ghost use Rattle.vlink.specs.declared.message.Message.{Message};
ghost use Rattle.vlink.specs.Order.{message_order};
ghost use Rattle.virtual_time.specs.Law.{AreBy, IsIn, Laws, next_of};
ghost use Rattle.ends.specs.Rounds.{IsCleared};
ghost use Rattle.reverse.specs.Rules.{rules_of};
ghost use Rattle.reverse.specs.Setting.{simulation_of};
ghost use Rattle.group_queues.specs.DoneEvents.{messages_of};
ghost use Rattle.group_exchange.specs.Views.{block_of, in_group, is_of};

use crate::group::Group;
use crate::run_of::GroupRun;
use reverse::{Actor, actor_law};

impl<R: Actor, J: GroupRun<R>> Group<R, J> {
    /// What the group has in hand states of its processes.
    ///
    /// - `laws`: the simulation meets the laws of virtual time.
    /// - `inside`: its processes are processes of the simulation.
    /// - `by`: the steps of its block are of its processes.
    /// - `waits`: what a process of it handles next is in its queue.
    /// - `done`: what a process of it has done and not committed is among its done events.
    /// - `in_time`: no done event of it is after the end.
    /// - `cleared`: if no letter is to arrive, no letter is left at its processes, and their floors are what they have in hand.
    pub fn stands_law(&self)
        ensures laws { Laws (simulation_of (rules_of R.plain) J.setting) }
        ensures inside { (p : ℕ) → is_of J.owners self.now.number p ≡ true → p < J.setting.processes }
        ensures by { AreBy (is_of J.owners self.now.number) (block_of self.now) }
        ensures waits { (p : ℕ) → is_of J.owners self.now.number p ≡ true → (m : Message) →
            next_of message_order ((in_group (simulation_of (rules_of R.plain) J.setting) self.now).parts p) ≡ Some m → IsIn message_order m self.now.held.flow.queue }
        ensures done { (p : ℕ) → is_of J.owners self.now.number p ≡ true → (m : Message) →
            IsIn message_order m ((in_group (simulation_of (rules_of R.plain) J.setting) self.now).parts p).done → IsIn message_order m (messages_of self.now.held.done) }
        ensures in_time { (m : Message) → IsIn message_order m (messages_of self.now.held.done) → m.time ≤ J.setting.until }
        ensures cleared { self.now.held.flow.tray ≡ [] → (p : ℕ) → is_of J.owners self.now.number p ≡ true →
            IsCleared (simulation_of (rules_of R.plain) J.setting) (in_group (simulation_of (rules_of R.plain) J.setting) self.now) p }
    {
        actor_law::<R>();
        let _number = self.number;
    }
}
