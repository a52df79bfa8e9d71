//! What the processes of a run share.
ghost use Rattle.std.specs.Prelude.{◌≡◌, ◌<◌, ◌≤◌, None, slice_get};
ghost use Rattle.std.specs.Option.{option_map};
ghost use Rattle.virtual_time.specs.Law.{reach};
ghost use Rattle.reverse.specs.Rules.{rules_of};
ghost use Rattle.reverse.specs.Setting.{simulation_of};

use crate::mark::Standing;
use crate::run_of::ActorRun;
use antimessages::Mail;
use gvt::Floors;
use halves::LeftHalf;
use journal::Entries;
use reverse::Actor;
use std::marker::{Model, PhantomData};
use vlink::{Letter, Time};

/// Mail, floors and GVT of all processes, the journal of what they did, and a mark for each process. A journal that is not stored exists in
/// proofs alone.
#[derive(Drop)]
pub struct Exchange<R: Actor, J: ActorRun<R>> {
    pub(crate) mail: Mail,
    pub(crate) floors: Floors,
    pub(crate) gvt: Time,
    pub(crate) journal: Entries,
    /// The number of steps that the entries represent.
    pub(crate) steps: u64,
    /// The half of the mark of each process, in order. They have no bytes.
    pub(crate) marks: Vec<LeftHalf<Standing>>,
    pub(crate) limit: u64,
    pub(crate) of: PhantomData<(J, R)>,
}

impl<R: Actor, J: ActorRun<R>> Model for Exchange<R, J> {
    ghost use Rattle.std.specs.Prelude.{◌≡◌, ◌≤◌, ◌^◌, map};
    ghost use Rattle.reverse.specs.Rules.{rules_of};
    ghost use Rattle.process_exchange.specs.Views.{Ledger, marks_in};
    ghost use Rattle.process_exchange.specs.Keeps.{IsRecorded};

    ghost Value = { Ledger };

    ghost view = { λ x. record { entries = x.journal.entries; marks = marks_in (map (λ b. b.value) x.marks.items); shared = x.journal.shared; limit = x.limit } };

    ghost invariant = { λ x. (x.steps ≤ x.limit) × (x.limit ≤ 2 ^ 62) ×
        IsRecorded (rules_of R.plain) R.number R.end R.is_placed J.setting
        x.journal.entries x.mail x.floors x.gvt x.steps (map (λ b. b.value) x.marks.items) ×
        (map (λ b. b.name) x.marks.items ≡ J.names) × (x.journal.keeps ≡ J.keeps) };
}

impl<R: Actor, J: ActorRun<R>> Exchange<R, J> {
    /// Returns the number of processes.
    pub fn processes(&self) -> u16
        ensures { result ≡ J.setting.processes }
    {
        self.floors.processes()
    }

    /// Returns GVT, in ns.
    pub fn gvt(&self) -> Time
        ensures { result ≡ (reach (simulation_of (rules_of R.plain) J.setting) self.now.entries).gvt }
    {
        self.gvt
    }

    /// Returns the letter number `place`, from 0, of the mail of process `process`. None if no letter has that number, or the process does
    /// not exist.
    pub fn look(&self, process: u16, place: usize) -> Option<Letter>
        ensures letter { process < J.setting.processes → result
            ≡ slice_get ((reach (simulation_of (rules_of R.plain) J.setting) self.now.entries).mail process) place }
        ensures none { J.setting.processes ≤ process → result ≡ None }
    {
        self.mail.look(process, place)
    }
}
