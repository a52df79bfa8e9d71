//! What a group does alone.
ghost use Rattle.std.specs.Prelude.{◌≡◌, ℕ, ◌+◌, ◌≤◌, ◌⊎◌, false, [], OnOk, IfOk, IfErr, IfNone, Ok, Err, All};
ghost use Rattle.vlink.specs.Order.{message_order};
ghost use Rattle.virtual_time.specs.Law.{IsAscending, one_if};
ghost use Rattle.reverse.specs.Rules.{rules_of};
ghost use Rattle.reverse.specs.Setting.{simulation_of};
ghost use Rattle.journal.specs.declared.fault.PoolFault.TheVariants.{OutOfMemory, Exhausted};
ghost use Rattle.group_queues.specs.Block.{runs_in};
ghost use Rattle.group_queues.specs.DoneEvents.{messages_of};
ghost use Rattle.group_hand.specs.Hands.{FirstWaits};
ghost use Rattle.group_hand.specs.declared.in_order.InOrder.TheVariants.{Ran, Idle, Late};
ghost use Rattle.group_exchange.specs.Effects.{CountsDone, Ends, Goes, IsGroupAsBefore, IsIdleBefore, IsShortBefore, Works, WorksSome};

use crate::group::Group;
use crate::run_of::GroupRun;
use group_boxes::Reach;
use group_hand::{HandFault, InOrder, hand_law};
use journal::{Gate, PoolFault};
use reverse::{Actor, actor_law};
use vlink::{Message, Time};

/// Lets all letters of the tray arrive. Then it handles messages that are earlier than the GVT seen plus `window`, in ns: as many as there are, `turn` at
/// most, and behind each it lets the letters arrive that the group sent itself. Then it commits all done events below the GVT seen. Each step joins the
/// block. The answer is the number of messages that it handled. It calls the gate before and after each, if the gate hears.
///
/// A refusal comes between two steps, and leaves what was done before it. `Exhausted`: of the messages that are not done the first is
/// earlier than the GVT seen plus `window`, and its receiver has too few numbers left for the most that one event can send. `OutOfMemory`:
/// memory was refused.
pub fn work<R: Actor, J: GroupRun<R>, G: Gate>(
    group: &mut Group<R, J>,
    turn: u32,
    window: u64,
    gate: &G,
) -> Result<u64, PoolFault>
    ensures ok { IfOk result (λ count. Works (simulation_of (rules_of R.plain) J.setting) J.owners turn window group.old group.new count) }
    ensures some { IfErr result (λ fault. WorksSome (simulation_of (rules_of R.plain) J.setting) J.owners window group.old group.new fault) }
{
    let reach = Reach::of(group.standing.seen, window, group.end);
    let count = group.run_turn(turn, reach.ahead, gate)?;
    group.commit_below(reach.good)?;
    Ok(count)
}

/// Returns the receiver of the message, if the message is earlier than the limit.
fn receiver_before(message: &Message, limit: Time) -> Option<u16>
    ensures { IfNone result (limit ≤ message.now.time) }
{
    if limit <= message.time {
        return None;
    }
    Some(message.receiver)
}

impl<R: Actor, J: GroupRun<R>> Group<R, J> {
    /// Letters of the tray arrive, and at most `turn` messages are handled, as long as they are earlier than the limit. After each of them
    /// the letters that it brought arrive.
    fn run_turn<G: Gate>(&mut self, turn: u32, limit: Time, gate: &G) -> Result<u64, PoolFault>
        ensures goes { Goes (simulation_of (rules_of R.plain) J.setting) J.owners limit self.old self.new }
        ensures counted { IfOk result (λ count. runs_in self.new.held.flow.words ≡ runs_in self.old.held.flow.words + count) }
        ensures within { IfOk result (λ count. count ≤ turn) }
        ensures idle { IfOk result (λ count. (count ≡ turn) ⊎ IsIdleBefore (simulation_of (rules_of R.plain) J.setting) J.owners limit self.new) }
        ensures arrived { OnOk result (self.new.held.flow.tray ≡ []) }
        ensures short { result ≡ Err Exhausted → IsShortBefore (simulation_of (rules_of R.plain) J.setting) J.owners limit self.new }
        ensures faults { IfErr result (λ fault. (fault ≡ OutOfMemory) ⊎ (fault ≡ Exhausted)) }
    {
        self.empty_tray()?;
        for run in 0..turn {
            if !self.run_one(limit, gate)? {
                return Ok(u64::from(run));
            }
            self.empty_tray()?;
        }
        Ok(u64::from(turn))
    }

    /// All letters of the tray arrive.
    #[inline(always)]
    fn empty_tray(&mut self) -> Result<(), PoolFault>
        ensures goes { (limit : ℕ) → Goes (simulation_of (rules_of R.plain) J.setting) J.owners limit self.old self.new }
        ensures counted { runs_in self.new.held.flow.words ≡ runs_in self.old.held.flow.words }
        ensures arrived { OnOk result (self.new.held.flow.tray ≡ []) }
        ensures memory { IfErr result (λ fault. fault ≡ OutOfMemory) }
    {
        actor_law::<R>();
        match self.hand.arrive_all() {
            Ok(()) => Ok(()),
            Err(_fault) => Err(PoolFault::OutOfMemory),
        }
    }

    /// Handles the first message, if it exists and is earlier than the limit, and calls the gate, if the gate hears. Returns whether there
    /// was one.
    #[inline(always)]
    fn run_one<G: Gate>(&mut self, limit: Time, gate: &G) -> Result<bool, PoolFault>
        requires arrived { self.old.held.flow.tray ≡ [] }
        ensures goes { Goes (simulation_of (rules_of R.plain) J.setting) J.owners limit self.old self.new }
        ensures counted { IfOk result (λ ran. runs_in self.new.held.flow.words ≡ runs_in self.old.held.flow.words + one_if ran) }
        ensures idle { result ≡ Ok false → IsIdleBefore (simulation_of (rules_of R.plain) J.setting) J.owners limit self.new }
        ensures tray { result ≡ Ok false → self.new.held.flow.tray ≡ self.old.held.flow.tray }
        ensures short { result ≡ Err Exhausted → IsShortBefore (simulation_of (rules_of R.plain) J.setting) J.owners limit self.new }
        ensures faults { IfErr result (λ fault. (fault ≡ OutOfMemory) ⊎ (fault ≡ Exhausted)) }
    {
        if gate.hears() {
            return self.run_told(limit, gate);
        }
        self.run_first(limit)
    }

    /// Handles the first message, if it exists and is earlier than the limit, and calls the gate before and after. Returns whether there
    /// was one.
    fn run_told<G: Gate>(&mut self, limit: Time, gate: &G) -> Result<bool, PoolFault>
        requires arrived { self.old.held.flow.tray ≡ [] }
        ensures goes { Goes (simulation_of (rules_of R.plain) J.setting) J.owners limit self.old self.new }
        ensures counted { IfOk result (λ ran. runs_in self.new.held.flow.words ≡ runs_in self.old.held.flow.words + one_if ran) }
        ensures idle { result ≡ Ok false → IsIdleBefore (simulation_of (rules_of R.plain) J.setting) J.owners limit self.new }
        ensures tray { result ≡ Ok false → self.new.held.flow.tray ≡ self.old.held.flow.tray }
        ensures short { result ≡ Err Exhausted → IsShortBefore (simulation_of (rules_of R.plain) J.setting) J.owners limit self.new }
        ensures faults { IfErr result (λ fault. (fault ≡ OutOfMemory) ⊎ (fault ≡ Exhausted)) }
    {
        self.count_done()?;
        let Some(process) = self.next_before(limit) else {
            return Ok(false);
        };
        let run = self.run_count(process);
        gate.before(process, run);
        let has_run = self.run_first(limit)?;
        gate.after(process, run);
        self.count_run(process, run);
        Ok(has_run)
    }

    /// Handles the first message, if it exists and is earlier than the limit. Returns whether there was one.
    #[inline(always)]
    fn run_first(&mut self, limit: Time) -> Result<bool, PoolFault>
        requires arrived { self.old.held.flow.tray ≡ [] }
        ensures goes { Goes (simulation_of (rules_of R.plain) J.setting) J.owners limit self.old self.new }
        ensures counted { IfOk result (λ ran. runs_in self.new.held.flow.words ≡ runs_in self.old.held.flow.words + one_if ran) }
        ensures idle { result ≡ Ok false → IsIdleBefore (simulation_of (rules_of R.plain) J.setting) J.owners limit self.new }
        ensures tray { result ≡ Ok false → self.new.held.flow.tray ≡ self.old.held.flow.tray }
        ensures short { result ≡ Err Exhausted → IsShortBefore (simulation_of (rules_of R.plain) J.setting) J.owners limit self.new }
        ensures faults { IfErr result (λ fault. (fault ≡ OutOfMemory) ⊎ (fault ≡ Exhausted)) }
    {
        match self.run_in_order(limit)? {
            InOrder::Ran => Ok(true),
            InOrder::Idle => Ok(false),
            InOrder::Late => self.run_next(limit),
        }
    }

    /// Handles the first message, if it is earlier than the limit and comes after all that the group has done.
    #[inline(always)]
    fn run_in_order(&mut self, limit: Time) -> Result<InOrder, PoolFault>
        requires arrived { self.old.held.flow.tray ≡ [] }
        ensures goes { Goes (simulation_of (rules_of R.plain) J.setting) J.owners limit self.old self.new }
        ensures counted { result ≡ Ok Ran → runs_in self.new.held.flow.words ≡ runs_in self.old.held.flow.words + 1 }
        ensures words { (result ≡ Ok Idle) ⊎ (result ≡ Ok Late) → self.new.held.flow.words ≡ self.old.held.flow.words }
        ensures idle { result ≡ Ok Idle → IsIdleBefore (simulation_of (rules_of R.plain) J.setting) J.owners limit self.new }
        ensures tray { (result ≡ Ok Idle) ⊎ (result ≡ Ok Late) → self.new.held.flow.tray ≡ self.old.held.flow.tray }
        ensures short { result ≡ Err Exhausted → IsShortBefore (simulation_of (rules_of R.plain) J.setting) J.owners limit self.new }
        ensures faults { IfErr result (λ fault. (fault ≡ OutOfMemory) ⊎ (fault ≡ Exhausted)) }
    {
        actor_law::<R>();
        match self.hand.run_in_order(limit) {
            Ok(outcome) => Ok(outcome),
            Err(HandFault::Exhausted) => Err(PoolFault::Exhausted),
            Err(HandFault::OutOfMemory) => Err(PoolFault::OutOfMemory),
        }
    }

    /// Handles the first message that is not done, if it exists and is earlier than the limit, whether other members have done later events
    /// or not. Returns whether there was one.
    fn run_next(&mut self, limit: Time) -> Result<bool, PoolFault>
        requires arrived { self.old.held.flow.tray ≡ [] }
        ensures goes { Goes (simulation_of (rules_of R.plain) J.setting) J.owners limit self.old self.new }
        ensures counted { IfOk result (λ ran. runs_in self.new.held.flow.words ≡ runs_in self.old.held.flow.words + one_if ran) }
        ensures idle { result ≡ Ok false → IsIdleBefore (simulation_of (rules_of R.plain) J.setting) J.owners limit self.new }
        ensures tray { result ≡ Ok false → self.new.held.flow.tray ≡ self.old.held.flow.tray }
        ensures short { result ≡ Err Exhausted → IsShortBefore (simulation_of (rules_of R.plain) J.setting) J.owners limit self.new }
        ensures faults { IfErr result (λ fault. (fault ≡ OutOfMemory) ⊎ (fault ≡ Exhausted)) }
    {
        actor_law::<R>();
        self.count_done()?;
        match self.hand.run_next(limit) {
            Ok(has_run) => Ok(has_run),
            Err(HandFault::Exhausted) => Err(PoolFault::Exhausted),
            Err(HandFault::OutOfMemory) => Err(PoolFault::OutOfMemory),
        }
    }

    /// Moves messages at the front of the queue that are already done to the tally, until the first is not done.
    fn count_done(&mut self) -> Result<(), PoolFault>
        ensures stood { CountsDone self.old self.new }
        ensures waits { OnOk result (IsAscending message_order (messages_of self.new.held.done) → FirstWaits message_order self.new.held) }
        ensures memory { IfErr result (λ fault. fault ≡ OutOfMemory) }
    {
        match self.hand.count_done() {
            Ok(()) => Ok(()),
            Err(_fault) => Err(PoolFault::OutOfMemory),
        }
    }

    /// Returns the process that handles the first message, if that exists and is earlier than the limit.
    fn next_before(&mut self, limit: Time) -> Option<u16>
        ensures stood { IsGroupAsBefore self.old self.new }
        ensures idle { IfNone result (IsIdleBefore (simulation_of (rules_of R.plain) J.setting) J.owners limit self.new) }
    {
        actor_law::<R>();
        hand_law::<R>();
        match self.hand.next() {
            Some(message) => receiver_before(&message, limit),
            None => None,
        }
    }

    /// Commits all done events that are earlier than the moment, which is the GVT seen. No letter waits in the tray.
    fn commit_below(&mut self, moment: Time) -> Result<(), PoolFault>
        requires tray { self.old.held.flow.tray ≡ [] }
        requires seen { moment ≡ self.old.seen }
        ensures ends { Ends (simulation_of (rules_of R.plain) J.setting) J.owners self.old self.new }
        ensures below { OnOk result (All (λ m. self.old.seen ≤ m.time) (messages_of self.new.held.done)) }
        ensures queue { self.new.held.flow.queue ≡ self.old.held.flow.queue }
        ensures in_time { All (λ m. m.time ≤ J.setting.until) self.new.held.flow.queue }
        ensures tray { self.new.held.flow.tray ≡ self.old.held.flow.tray }
        ensures memory { IfErr result (λ fault. fault ≡ OutOfMemory) }
    {
        actor_law::<R>();
        match self.hand.commit_below(moment) {
            Ok(()) => Ok(()),
            Err(_fault) => Err(PoolFault::OutOfMemory),
        }
    }

    /// Returns how many messages a process has handled, counting those that it handled again.
    fn run_count(&self, process: u16) -> u64 {
        match self.runs.get(usize::from(process)) {
            Some(runs) => *runs,
            None => 0,
        }
    }

    /// Counts one more message that a process handled. The count stops at its greatest value.
    fn count_run(&mut self, process: u16, run: u64)
        ensures { self.new ≡ self.old }
    {
        if usize::from(process) < self.runs.len() {
            self.runs[usize::from(process)] = run.saturating_add(1);
        }
    }
}
