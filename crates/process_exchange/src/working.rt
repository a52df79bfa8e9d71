//! What a process does alone.
ghost use Rattle.std.specs.Prelude.{◌≡◌, ◌≢◌, ◌<◌, ◌≤◌, ◌+◌, ◌⊎◌, ◌↔◌, ℕ, true, false, [], ◌∷◌, length, replicate, OnOk, IfOk, OnErr, IfErr, Err, IsSome, IsTrue, is_some};
ghost use Rattle.vlink.specs.Order.{message_order};
ghost use Rattle.vlink.specs.declared.message.Message.{Message};
ghost use Rattle.vlink.specs.Numbering.{greatest_number};
ghost use Rattle.virtual_time.specs.Law.{earlier, next_of};
ghost use Rattle.virtual_time.specs.declared.moved.Move.TheVariants.{Arrived, Ran, Committed};
ghost use Rattle.reverse.specs.Rules.{rules_of};
ghost use Rattle.reverse.specs.Setting.{simulation_of};
ghost use Rattle.journal.specs.declared.fault.PoolFault.TheVariants.{OutOfMemory, Exhausted};
ghost use Rattle.process_exchange.specs.Effects.{Works, WorksSome, Runs, StopsAtArrival, StopsAtRun, StopsAtCommit, IsDueBefore, IsIdleBefore, WantsNumbers, moved_by};
ghost use Rattle.reverse.specs.declared.sends.TheConstants.{MOST_SENT};

use crate::held::Held;
use crate::run_of::ActorRun;
use journal::{Gate, PoolFault};
use reverse::{Actor, actor_law};
use virtual_time::Move;
use vlink::Time;

/// Does three things in turn. All letters of the tray arrive. Then at most `turn` messages are handled, as long as they are earlier than
/// the GVT seen plus `window`, in ns. Then all done events below the GVT seen are committed. Each step joins the block. Returns the number
/// of steps. Calls the gate for each message that is handled.
///
/// A refusal comes at the first step that could not be done, and the block holds just those before it: letters that arrived, then messages
/// that were handled, then events that were committed. `Exhausted` comes exactly if a message is to be handled and its actor has too few
/// numbers left, `OutOfMemory` only if memory was refused for a step that is to be done.
pub fn work<R: Actor, J: ActorRun<R>, G: Gate>(
    held: &mut Held<R, J>,
    turn: u32,
    window: u64,
    gate: &G,
) -> Result<u64, PoolFault>
    ensures ok { IfOk result (λ count. Works (simulation_of (rules_of R.plain) J.setting) turn window held.old held.new count) }
    ensures some { IfErr result (λ fault. WorksSome (simulation_of (rules_of R.plain) J.setting) turn window held.old held.new fault) }
    ensures exhausted { result ≡ Err Exhausted → IsSome (next_of message_order held.new.part)
        × (greatest_number < R.plain.counter held.new.part.state + MOST_SENT) }
    ensures faults { IfErr result (λ fault. (fault ≡ OutOfMemory) ⊎ (fault ≡ Exhausted)) }
{
    let before = held.pending();
    held.arrive_all()?;
    held.run_early(turn, window, gate)?;
    held.commit_all()?;
    Ok(held.pending() - before)
}

impl<R: Actor, J: ActorRun<R>> Held<R, J> {
    /// All letters of the tray arrive.
    fn arrive_all(&mut self) -> Result<(), PoolFault>
        ensures arrived { OnOk result (self.new ≡ moved_by (simulation_of (rules_of R.plain) J.setting) (replicate (length self.old.part.tray) Arrived) self.old) }
        ensures some { IfErr result (λ fault. StopsAtArrival (simulation_of (rules_of R.plain) J.setting) self.old self.new fault) }
    {
        let letters = self.tray_len();
        for arrived in 0..letters {
            self.arrive()?;
        }
        Ok(())
    }

    /// Returns the number of letters in its tray.
    fn tray_len(&self) -> usize
        ensures { result ≡ length self.now.part.tray }
    {
        self.process.tray_len()
    }

    /// The front letter of the tray, which must exist, arrives.
    fn arrive(&mut self) -> Result<(), PoolFault>
        requires { 0 < length self.old.part.tray }
        ensures arrived { OnOk result (self.new ≡ moved_by (simulation_of (rules_of R.plain) J.setting) (Arrived ∷ []) self.old) }
        ensures tray { OnOk result (length self.new.part.tray + 1 ≡ length self.old.part.tray) }
        ensures unchanged { OnErr result (self.new ≡ self.old) }
        ensures memory { IfErr result (λ fault. fault ≡ OutOfMemory) }
    {
        actor_law::<R>();
        if self.block.push(self.alloc, Move::Arrived).is_err() {
            return Err(PoolFault::OutOfMemory);
        }
        match self.process.arrive() {
            Ok(_undone) => Ok(()),
            Err(_fault) => {
                self.block.pop();
                Err(PoolFault::OutOfMemory)
            }
        }
    }

    /// Handles at most `turn` messages, as long as they are earlier than the GVT seen plus `window`, in ns.
    fn run_early<G: Gate>(&mut self, turn: u32, window: u64, gate: &G) -> Result<(), PoolFault>
        ensures ran { OnOk result (Runs (simulation_of (rules_of R.plain) J.setting) turn (self.old.mark.seen + window) self.old self.new) }
        ensures some { IfErr result (λ fault. StopsAtRun (simulation_of (rules_of R.plain) J.setting) turn (self.old.mark.seen + window) self.old self.new fault) }
        ensures faults { IfErr result (λ fault. (fault ≡ OutOfMemory) ⊎ (fault ≡ Exhausted)) }
    {
        for run in 0..turn {
            if !self.is_due(window) {
                return Ok(());
            }
            self.run_next(gate)?;
        }
        Ok(())
    }

    /// Whether the next message exists and is earlier than the GVT seen plus `window`, in ns.
    fn is_due(&self, window: u64) -> bool
        ensures due { result ≡ true → IsDueBefore (simulation_of (rules_of R.plain) J.setting) (self.now.mark.seen + window) self.now.part }
        ensures idle { result ≡ false → IsIdleBefore (simulation_of (rules_of R.plain) J.setting) (self.now.mark.seen + window) self.now.part }
    {
        match self.process.next() {
            Some(message) => is_within(message.time, self.standing.seen, window),
            None => false,
        }
    }

    /// Handles the next message, which must exist.
    fn run_next<G: Gate>(&mut self, gate: &G) -> Result<(), PoolFault>
        requires { is_some (next_of message_order self.old.part) ≡ true }
        ensures ran { OnOk result (self.new ≡ moved_by (simulation_of (rules_of R.plain) J.setting) (Ran ∷ []) self.old) }
        ensures unchanged { OnErr result (self.new ≡ self.old) }
        ensures numbers { IfErr result (λ fault. (fault ≡ Exhausted) ↔ WantsNumbers (simulation_of (rules_of R.plain) J.setting) self.old.part) }
        ensures faults { IfErr result (λ fault. (fault ≡ OutOfMemory) ⊎ (fault ≡ Exhausted)) }
    {
        actor_law::<R>();
        if !self.process.has_numbers() {
            return Err(PoolFault::Exhausted);
        }
        if self.block.push(self.alloc, Move::Ran).is_err() {
            return Err(PoolFault::OutOfMemory);
        }
        gate.before(self.number, self.runs);
        match self.process.run_with(&mut self.out) {
            Ok(_message) => {
                gate.after(self.number, self.runs);
                self.runs = self.runs.saturating_add(1);
                Ok(())
            }
            Err(_fault) => {
                self.block.pop();
                Err(PoolFault::OutOfMemory)
            }
        }
    }

    /// Commits all done events that are earlier than the GVT seen.
    fn commit_all(&mut self) -> Result<(), PoolFault>
        ensures committed { OnOk result ((commits : ℕ) × (self.new ≡ moved_by (simulation_of (rules_of R.plain) J.setting) (replicate commits Committed) self.old)
            × (earlier message_order self.old.mark.seen self.new.part.done ≡ [])) }
        ensures some { IfErr result (λ fault. StopsAtCommit (simulation_of (rules_of R.plain) J.setting) self.old self.new fault) }
    {
        let seen = self.mark().seen;
        while !self.is_committed_before(seen) {
            self.commit_oldest()?;
        }
        Ok(())
    }

    /// Commits the oldest done event, which must exist and be earlier than the GVT seen.
    fn commit_oldest(&mut self) -> Result<(), PoolFault>
        requires { earlier message_order self.old.mark.seen self.old.part.done ≢ [] }
        ensures committed { OnOk result (self.new ≡ moved_by (simulation_of (rules_of R.plain) J.setting) (Committed ∷ []) self.old) }
        ensures fewer { OnOk result (length self.new.part.done < length self.old.part.done) }
        ensures unchanged { OnErr result (self.new ≡ self.old) }
        ensures memory { IfErr result (λ fault. fault ≡ OutOfMemory) }
    {
        actor_law::<R>();
        if self.block.push(self.alloc, Move::Committed).is_err() {
            return Err(PoolFault::OutOfMemory);
        }
        match self.process.seal_oldest() {
            Ok(_done) => Ok(()),
            Err(_fault) => {
                self.block.pop();
                Err(PoolFault::OutOfMemory)
            }
        }
    }
}

/// Whether the moment is earlier than `from` plus `window`, in ns.
fn is_within(moment: Time, from: Time, window: u64) -> bool
    ensures { IsTrue result ↔ (moment < from + window) }
{
    moment < from || moment.ns() - from.ns() < window
}
