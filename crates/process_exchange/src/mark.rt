//! What an exchange and a process in hand both state of the process.
ghost use Rattle.std.specs.Prelude.{◌≡◌, ◌<◌, ℕ, Some, map, set, length, slice_index};
ghost use Rattle.virtual_time.specs.Law.{own_in};
ghost use Rattle.process_exchange.specs.Views.{place_of, own_of};

use halves::{LeftHalf, RightHalf, tell};
use journal::Entries;
use std::snapshot::Snapshot;
use vlink::Time;

/// The place of the last entry of a process, and the GVT that its last `collect` saw.
#[derive(Clone, Copy, PartialEq, Eq)]
pub struct Mark {
    /// The place of its last entry, from 0, or none before the first.
    pub place: Option<u64>,
    /// The GVT that its last `collect` saw, in ns; 0 before any.
    pub seen: Time,
}

/// The last entry of a process.
#[derive(Drop)]
pub struct Last {
    /// Its place in the journal, from 0.
    pub place: u64,
    /// The journal up to it. It has no bytes.
    pub journal: Snapshot<Entries>,
}

/// The mark of a process, with the journal up to its last entry. A process in hand has one, and the exchange has one for each process. Both
/// are halves of one value, and always equal.
#[derive(Drop)]
pub struct Standing {
    /// Its last entry, by which it collected or posted, or none before the first.
    pub last: Option<Last>,
    /// The GVT that its last `collect` saw, in ns; 0 before any.
    pub seen: Time,
}

/// Sets the two halves of the standing of a process to another value.
pub(crate) fn tell_both(
    marks: &mut Vec<LeftHalf<Standing>>,
    half: &mut RightHalf<Standing>,
    process: u16,
    mark: &Standing,
)
    requires within { process < length marks.old.items }
    requires one { slice_index (map (λ b. b.name) marks.old.items) process ≡ half.old.name }
    ensures marks { map (λ b. b.value) marks.new.items ≡ set (map (λ b. b.value) marks.old.items) process mark.now }
    ensures mark { half.new.value ≡ mark.now }
    ensures names { map (λ b. b.name) marks.new.items ≡ map (λ b. b.name) marks.old.items }
    ensures name { half.new.name ≡ half.old.name }
{
    let own = &mut marks[usize::from(process)];
    tell(own, half, mark);
}

/// Makes the standing of a process whose entry at this place is the last one of the journal, and that has seen GVT at this moment, in ns.
pub(crate) fn standing_at(place: u64, journal: &Entries, seen: Time) -> Standing
    ensures place { place_of result.last ≡ Some place }
    ensures own { (p : ℕ) → own_of p result.last ≡ own_in p journal.now.entries }
    ensures seen { result.seen ≡ seen }
{
    let journal = Snapshot::of(journal);
    Standing {
        last: Some(Last { place, journal }),
        seen,
    }
}
