//! Appends an entry to the journal.
ghost use Rattle.std.specs.Prelude.{◌≡◌, ◌<◌, ◌≤◌, ◌⊎◌, ◌++◌, ◌∷◌, ℕ, [], All, Some, map, set, length, slice_index, true, OnOk, IfErr};
ghost use Rattle.virtual_time.specs.Law.{own_in};
ghost use Rattle.antimessages.specs.Mailing.{HasRoom, letters_for};
ghost use Rattle.journal.specs.declared.fault.PoolFault.TheVariants.{OutOfMemory, Torn};
ghost use Rattle.process_exchange.specs.Views.{place_of, own_of};

use crate::mark::{Standing, standing_at, tell_both};
use antimessages::Mail;
use halves::{LeftHalf, RightHalf};
use journal::{Entries, Entry, PoolFault};
use process_queues::Process;
use reverse::Actor;
use vlink::Time;

/// Makes room for an entry, and for `letters` letters in the tray of a process.
pub(crate) fn reserve_to_collect<R: Actor>(
    process: &mut Process<R>,
    journal: &mut Entries,
    letters: usize,
) -> Result<(), PoolFault>
    ensures tray { OnOk result (letters ≤ process.new.room) }
    ensures entry { OnOk result (0 < journal.new.room) }
    ensures queues { process.new.queues ≡ process.old.queues }
    ensures entries { journal.new.entries ≡ journal.old.entries }
    ensures keeps { journal.new.keeps ≡ journal.old.keeps }
    ensures shared { journal.new.shared ≡ journal.old.shared }
    ensures faults { IfErr result (λ fault. (fault ≡ OutOfMemory) ⊎ ((fault ≡ Torn) × (journal.old.keeps ≡ true) × (journal.old.shared ≡ true))) }
{
    match process.reserve_letters(letters) {
        Ok(()) => journal.reserve(),
        Err(_fault) => Err(PoolFault::OutOfMemory),
    }
}

/// Makes room for an entry, and in the mail for the outbox of a process.
pub(crate) fn reserve_to_post<R: Actor>(
    process: &Process<R>,
    mail: &mut Mail,
    journal: &mut Entries,
) -> Result<(), PoolFault>
    requires { All (λ letter. letter.message.receiver < length mail.old) process.now.queues.outbox }
    ensures mail { OnOk result (HasRoom mail.new process.now.queues.outbox) }
    ensures entry { OnOk result (0 < journal.new.room) }
    ensures letters { (p : ℕ) → letters_for p mail.new ≡ letters_for p mail.old }
    ensures boxes { length mail.new ≡ length mail.old }
    ensures entries { journal.new.entries ≡ journal.old.entries }
    ensures keeps { journal.new.keeps ≡ journal.old.keeps }
    ensures shared { journal.new.shared ≡ journal.old.shared }
    ensures faults { IfErr result (λ fault. (fault ≡ OutOfMemory) ⊎ ((fault ≡ Torn) × (journal.old.keeps ≡ true) × (journal.old.shared ≡ true))) }
{
    match process.reserve_post(mail) {
        Ok(()) => journal.reserve(),
        Err(_fault) => Err(PoolFault::OutOfMemory),
    }
}

/// Appends the entry of a process to the journal, which has room for it. Both halves of the mark of the process then state where it stands,
/// and that GVT was seen at this moment, in ns.
pub(crate) fn enter(
    journal: &mut Entries,
    entry: Entry,
    standing: &mut Standing,
    marks: &mut Vec<LeftHalf<Standing>>,
    half: &mut RightHalf<Standing>,
    process: u16,
    seen: Time,
)
    requires room { 0 < journal.old.room }
    requires within { process < length marks.old.items }
    requires one { slice_index (map (λ b. b.name) marks.old.items) process ≡ half.old.name }
    ensures entries { journal.new.entries ≡ journal.old.entries ++ entry ∷ [] }
    ensures keeps { journal.new.keeps ≡ journal.old.keeps }
    ensures shared { journal.new.shared ≡ journal.old.shared }
    ensures place { place_of standing.new.last ≡ Some (length journal.old.entries) }
    ensures own { (p : ℕ) → own_of p standing.new.last ≡ own_in p journal.new.entries }
    ensures seen { standing.new.seen ≡ seen }
    ensures marks { map (λ b. b.value) marks.new.items ≡ set (map (λ b. b.value) marks.old.items) process standing.new }
    ensures mark { half.new.value ≡ standing.new }
    ensures names { map (λ b. b.name) marks.new.items ≡ map (λ b. b.name) marks.old.items }
    ensures name { half.new.name ≡ half.old.name }
{
    let place = journal.len() as u64;
    journal.push_reserved(entry);
    *standing = standing_at(place, journal, seen);
    tell_both(marks, half, process, standing);
}
