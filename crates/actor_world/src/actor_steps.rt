//! The six steps of a world of any actors. The contract of a refused step compares letters and not room, since Take fills the tray before
//! it empties the mail.
ghost use Rattle.std.specs.Prelude.{◌≡◌, ◌≢◌, ◌↔◌, ◌<◌, ℕ, true, false, length, Some, Ok, Err, IsTrue, OnOk, IfOk};
ghost use Rattle.virtual_time.specs.declared.step.Step.TheVariants.{Gvt, Take, Arrive, Run, Post, Commit};
ghost use Rattle.virtual_time.specs.Law.{is_enabled, step as stepped};
ghost use Rattle.reverse.specs.Rules.{rules_of};
ghost use Rattle.antimessages.specs.Steps.{names_none};
ghost use Rattle.actor_world.specs.declared.done.Done.TheVariants.{Did, NotEnabled};
ghost use Rattle.actor_world.specs.declared.fault.StepFault.TheVariants.{NoProcess, OutOfMemory, Exhausted};
ghost use Rattle.actor_world.specs.Worlds.{StandsForWorld, HoldsTheSame, IsExhausted, AtEachWorld, IsAWorld};
ghost use Rattle.actor_world.specs.Stepping.{IsStepped};

use crate::actors::ActorWorld;
use crate::done::Done;
use crate::fault::StepFault;
use fossil::is_early;
use gvt::{gvt_law, horizon};
use reverse::{Actor, actor_law, actor_rules_law};
use vlink::{Letter, Note, Step, Time};

impl<R: Actor> ActorWorld<R> {
    /// Does one step. Afterwards the value represents what the step makes of the world that it represented. A step that is not enabled, and
    /// one that is refused, leave it as it was. Steps that are not enabled and Gvt take no memory. `Exhausted` comes exactly at Run of a
    /// process that has a next message, and not enough numbers left for what one event can send.
    pub fn step(&mut self, step: Step) -> Result<Done, StepFault>
        requires { IsAWorld (rules_of R.plain) R.number R.end R.is_placed R.is_value self.old }
        ensures stands { OnOk result (AtEachWorld (rules_of R.plain) R.number R.end R.is_placed R.is_value self.old
            (λ f w. StandsForWorld f R.is_value (stepped f step w) self.new)) }
        ensures enabled { IfOk result (λ done. AtEachWorld (rules_of R.plain) R.number R.end R.is_placed R.is_value self.old
            (λ f w. (done ≡ Did) ↔ (is_enabled f step w ≡ true))) }
        ensures unchanged { result ≢ Ok Did → HoldsTheSame self.old self.new }
        ensures no_process { (result ≡ Err NoProcess) ↔ (names_none (length self.old.processes) step ≡ true) }
        ensures exhausted { AtEachWorld (rules_of R.plain) R.number R.end R.is_placed R.is_value self.old
            (λ f w. (result ≡ Err Exhausted) ↔ IsExhausted f step w) }
        ensures memory { result ≡ Err OutOfMemory → AtEachWorld (rules_of R.plain) R.number R.end R.is_placed R.is_value self.old
            (λ f w. is_enabled f step w ≡ true) }
        ensures gvt { step ≡ Gvt → result ≡ Ok Did }
    {
        if self.names_none(&step) {
            return Err(StepFault::NoProcess);
        }
        self.step_there(step)
    }

    /// Does a step that names no process, or one that exists.
    #[tactic(auto, using(crate::proofs::Answering::answers))]
    fn step_there(&mut self, step: Step) -> Result<Done, StepFault>
        requires world { IsAWorld (rules_of R.plain) R.number R.end R.is_placed R.is_value self.old }
        requires there { names_none (length self.old.processes) step ≡ false }
        requires few { length self.old.processes < 65536 }
        ensures stepped { IsStepped (rules_of R.plain) R.number R.end R.is_placed R.is_value step self.old self.new result }
        ensures gvt { step ≡ Gvt → result ≡ Ok Did }
    {
        match step {
            Step::Take { process, place } => self.take(number_of(process), place),
            Step::Arrive { process } => self.arrive(number_of(process)),
            Step::Run { process } => self.run(number_of(process)),
            Step::Post { process } => self.post(number_of(process)),
            Step::Gvt => Ok(self.publish()),
            Step::Commit { process } => self.commit(number_of(process)),
        }
    }

    /// Whether the step names a process that does not exist.
    fn names_none(&self, step: &Step) -> bool
        requires { IsAWorld (rules_of R.plain) R.number R.end R.is_placed R.is_value self.now }
        ensures answer { result ≡ names_none (length self.now.processes) step.now }
        ensures few { length self.now.processes < 65536 }
    {
        let processes = u32::from(self.floors.processes());
        match *step {
            Step::Take { process, .. }
            | Step::Arrive { process }
            | Step::Run { process }
            | Step::Post { process }
            | Step::Commit { process } => process >= processes,
            Step::Gvt => false,
        }
    }

    /// Moves the letter number `place`, from 0, of the process's mail to the back of its tray. The floor of the process falls to the
    /// letter's time if that is lower.
    fn take(&mut self, process: u16, place: u32) -> Result<Done, StepFault>
        requires world { IsAWorld (rules_of R.plain) R.number R.end R.is_placed R.is_value self.old }
        requires there { process < length self.old.processes }
        ensures { IsStepped (rules_of R.plain) R.number R.end R.is_placed R.is_value (Take process place) self.old self.new result }
    {
        let Some(letter) = self.mail.look(process, place as usize) else {
            return Ok(Done::NotEnabled);
        };
        let time = time_of(&letter);
        self.processes[usize::from(process)].deliver(letter)?;
        let _taken = self.mail.take(process, place as usize);
        self.floors.lower(process, time);
        Ok(Done::Did)
    }

    /// Tallies the front letter of the process's tray. The process rolls back if the letter's message becomes present or absent.
    fn arrive(&mut self, process: u16) -> Result<Done, StepFault>
        requires world { IsAWorld (rules_of R.plain) R.number R.end R.is_placed R.is_value self.old }
        requires there { process < length self.old.processes }
        ensures { IsStepped (rules_of R.plain) R.number R.end R.is_placed R.is_value (Arrive process) self.old self.new result }
    {
        let process = &mut self.processes[usize::from(process)];
        if process.tray_len() == 0 {
            return Ok(Done::NotEnabled);
        }
        process.arrive()?;
        Ok(Done::Did)
    }

    /// Handles the first unhandled message of the process.
    fn run(&mut self, process: u16) -> Result<Done, StepFault>
        requires world { IsAWorld (rules_of R.plain) R.number R.end R.is_placed R.is_value self.old }
        requires there { process < length self.old.processes }
        ensures { IsStepped (rules_of R.plain) R.number R.end R.is_placed R.is_value (Run process) self.old self.new result }
    {
        actor_rules_law::<R>();
        let Some(_message) = self.processes[usize::from(process)].run_with(&mut self.out)? else {
            return Ok(Done::NotEnabled);
        };
        Ok(Done::Did)
    }

    /// Moves the process's outbox to the mail, and sets its floor to the least moment of what it still has in hand.
    fn post(&mut self, process: u16) -> Result<Done, StepFault>
        requires world { IsAWorld (rules_of R.plain) R.number R.end R.is_placed R.is_value self.old }
        requires there { process < length self.old.processes }
        ensures { IsStepped (rules_of R.plain) R.number R.end R.is_placed R.is_value (Post process) self.old self.new result }
    {
        actor_law::<R>();
        self.processes[usize::from(process)].post(&mut self.mail)?;
        let floor = self.processes[usize::from(process)].floor();
        self.floors.set(process, floor);
        Ok(Done::Did)
    }

    /// Sets GVT to the least of all floors and of the times of all letters in the mail. Takes no memory.
    fn publish(&mut self) -> Done
        requires world { IsAWorld (rules_of R.plain) R.number R.end R.is_placed R.is_value self.old }
        ensures stepped { IsStepped (rules_of R.plain) R.number R.end R.is_placed R.is_value Gvt self.old self.new (Ok result) }
        ensures did { result ≡ Did }
    {
        gvt_law::<R, R::Record, Note>();
        self.gvt = horizon(&self.floors, &self.mail);
        Done::Did
    }

    /// Commits the process's oldest done event, if it is earlier than GVT and its signed count is 1.
    fn commit(&mut self, process: u16) -> Result<Done, StepFault>
        requires world { IsAWorld (rules_of R.plain) R.number R.end R.is_placed R.is_value self.old }
        requires there { process < length self.old.processes }
        ensures { IsStepped (rules_of R.plain) R.number R.end R.is_placed R.is_value (Commit process) self.old self.new result }
    {
        let process = &mut self.processes[usize::from(process)];
        if !is_early(process.oldest(), self.gvt) {
            return Ok(Done::NotEnabled);
        }
        if !process.seal_oldest()? {
            return Ok(Done::NotEnabled);
        }
        Ok(Done::Did)
    }
}

/// Returns the number of a process as calls use it; a step has it in 32 bits.
fn number_of(process: u32) -> u16
    requires { process < 65536 }
    ensures { result ≡ process }
{
    process as u16
}

/// Returns the time of the letter's message.
fn time_of(letter: &Letter) -> Time
    ensures { result ≡ letter.now.message.time }
{
    letter.message.time
}
