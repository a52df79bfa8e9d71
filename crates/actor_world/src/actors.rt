//! The world of any actors.
ghost use Rattle.std.specs.Prelude.{◌≡◌, ◌↔◌, ◌<◌, ◌≤◌, ℕ, [], All, length, map, take, slice_get, Some, IsTrue, IsNone, IfOk, IfErr, IfSome};
ghost use Rattle.std.specs.Option.{option_map};
ghost use Rattle.vlink.specs.declared.time.TheConstants.{GREATEST_NS};
ghost use Rattle.vlink.specs.Order.{message_order};
ghost use Rattle.virtual_time.specs.Law.{plus_of, received_by, reached, rowed, undo_all, start, IsFinished};
ghost use Rattle.reverse.specs.Rules.{rules_of};
ghost use Rattle.reverse.specs.Setting.{Setting, simulation_of, Opens, IsLaidOut};
ghost use Rattle.antimessages.specs.Mailing.{letters_for};
ghost use Rattle.actor_world.specs.declared.fault.StepFault.TheVariants.{OutOfMemory};
ghost use Rattle.actor_world.specs.Worlds.{AreOpened, StandsForWorld, AtEachWorld, CanOpen};

use crate::fault::StepFault;
use antimessages::{Mail, plus_letters};
use gvt::Floors;
use process_queues::Process;
use reverse::{Actor, Outbound, actor_rules_law};
use std::alloc::Global;
use std::marker::Model;
use vlink::{Letter, Message, Row, Time, process_number};

/// Processes of these actors, process p in place p, with their mail, their floors and GVT.
///
/// Clauses see it as the world of the laws of virtual time that it represents.
#[derive(Drop)]
pub struct ActorWorld<R: Actor> {
    pub(crate) processes: Vec<Process<R>>,
    pub(crate) mail: Mail,
    pub(crate) floors: Floors,
    pub(crate) gvt: Time,
    /// Room for what one event sends and notes.
    pub(crate) out: Outbound,
}

impl<R: Actor> Model for ActorWorld<R> {
    ghost use Rattle.std.specs.Prelude.{map};
    ghost use Rattle.actor_world.specs.Worlds.{Holdings};

    ghost Value = { Holdings R R.Record };

    ghost view = { λ a. record {
      processes = map (λ process. process.queues) a.processes.items;
      mail = a.mail;
      floors = a.floors.floors;
      gvt = a.gvt;
      until = a.floors.until;
    } };
}

impl<R: Actor + Drop> ActorWorld<R> {
    /// Makes the world at the start: each actor is in its opening state, the offers are in the mail, every floor is the moment after the
    /// end, and GVT is 0. Actor p is process p. An error means that memory was refused.
    pub fn new(
        alloc: Global,
        actors: Vec<R>,
        offers: &[Message],
        until: Time,
    ) -> Result<Self, StepFault>
        requires few { length actors.items < 65536 }
        requires end { until < GREATEST_NS }
        requires layout { CanOpen (rules_of R.plain) R.number R.end R.is_placed R.is_value actors.items offers.now until }
        ensures opens { IfOk result (λ world. (x : Setting R) → Opens x actors.items offers.now → x.until ≡ until →
            StandsForWorld (simulation_of (rules_of R.plain) x) R.is_value (start (simulation_of (rules_of R.plain) x)) world) }
        ensures memory { IfErr result (λ fault. fault ≡ OutOfMemory) }
    {
        actor_rules_law::<R>();
        let count = process_number(actors.len());
        let processes = processes_of(alloc, actors)?;
        let mail = offered(alloc, count, offers)?;
        let floors = Floors::new(alloc, count, until)?;
        Ok(ActorWorld {
            processes,
            mail,
            floors,
            gvt: Time::default(),
            out: Outbound::new(0, until, 0),
        })
    }

    /// Returns GVT.
    pub fn gvt(&self) -> Time
        ensures { result ≡ self.now.gvt }
    {
        self.gvt
    }

    /// Returns the letter number `place`, from 0, of the mail of process `process`: the one that the step Take would take. None if no
    /// letter has that number, or the process does not exist.
    pub fn look(&self, process: u16, place: usize) -> Option<Letter>
        ensures { result ≡ slice_get (letters_for process self.now.mail) place }
    {
        self.mail.look(process, place)
    }

    /// Whether every done event of every process is committed.
    pub fn all_committed(&self) -> bool
        ensures { AtEachWorld (rules_of R.plain) R.number R.end R.is_placed R.is_value self.now
            (λ f w. IsTrue result ↔ ((p : ℕ) → p < f.processes → (w.parts p).done ≡ [])) }
    {
        for process in &self.processes {
            if process.oldest().is_some() {
                return false;
            }
        }
        true
    }

    /// Whether the run, whose end time is `until`, is finished: GVT is the moment after the end, and every done event is committed.
    #[tactic(auto, using(crate::proofs::Finishing::finished))]
    pub fn is_finished(&self, until: Time) -> bool
        requires { until ≡ self.now.until }
        ensures { AtEachWorld (rules_of R.plain) R.number R.end R.is_placed R.is_value self.now
            (λ f w. IsTrue result ↔ IsFinished f w) }
    {
        self.gvt.ns() == until.ns() + 1 && self.all_committed()
    }

    /// Returns the rows of the committed events of process `process`, in their order.
    pub fn sealed(&self, process: u16) -> &[Row]
        requires { process < length self.now.processes }
        ensures { AtEachWorld (rules_of R.plain) R.number R.end R.is_placed R.is_value self.now
            (λ f w. result.now ≡ rowed f.rules (f.opening process) (w.parts process).committed) }
    {
        self.processes[usize::from(process)].sealed()
    }

    /// Undoes all done events of process `process`, the newest first, each by its record, and returns the actor; none if the process does
    /// not exist. Sends nothing.
    pub fn undo_all(self, process: u16) -> Option<R>
        ensures none { IsNone result ↔ (length self.processes ≤ process) }
        ensures undone { IfSome result (λ actor. AtEachWorld (rules_of R.plain) R.number R.end R.is_placed R.is_value self
            (λ f w. actor ≡ undo_all f.rules (f.opening process) (w.parts process))) }
        ensures reached { IfSome result (λ actor. AtEachWorld (rules_of R.plain) R.number R.end R.is_placed R.is_value self
            (λ f w. actor ≡ reached f.rules (f.opening process) (w.parts process).committed)) }
    {
        let ActorWorld { mut processes, .. } = self;
        let place = usize::from(process);
        if place >= processes.len() {
            return None;
        }
        Some(processes.swap_remove(place).undo_all())
    }
}

/// Makes the mail of `processes` processes, with the offers in it.
fn offered(
    alloc: Global,
    processes: u16,
    offers: &[Message],
) -> Result<Mail, antimessages::OutOfMemory>
    requires { All (λ letter. letter.message.receiver < processes) (map plus_of offers.now) }
    ensures processes { IfOk result (λ mail. length mail ≡ processes) }
    ensures letters { IfOk result (λ mail. (p : ℕ) → letters_for p mail ≡ received_by message_order p (map plus_of offers.now)) }
{
    let letters = plus_letters(alloc, offers)?;
    Mail::with_letters(alloc, processes, &letters)
}

/// Makes, for each actor in order, a process that has done nothing.
fn processes_of<R: Actor + Drop>(
    alloc: Global,
    actors: Vec<R>,
) -> Result<Vec<Process<R>>, StepFault>
    ensures processes { IfOk result (λ processes. AreOpened (rules_of R.plain) R.is_value actors.items (map (λ process. process.queues) processes.items)) }
    ensures memory { IfErr result (λ fault. fault ≡ OutOfMemory) }
{
    let mut processes = Vec::new(alloc);
    for actor in actors {
        processes.push(Process::new(alloc, actor)?)?;
    }
    Ok(processes)
}
