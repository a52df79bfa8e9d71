//! What an exchange and a group in hand both state of the group.
ghost use Rattle.std.specs.Prelude.{◌≡◌, ◌<◌, map, set, length, slice_index};
ghost use Rattle.group_exchange.specs.Views.{IsUnplaced, last_in};

use crate::steps::Steps;
use halves::{LeftHalf, RightHalf, tell};
use std::alloc::Global;
use std::snapshot::Snapshot;
use vlink::Time;

/// The length of the journal when a group last collected or posted, and the GVT that its last `collect` saw.
#[derive(Clone, Copy, PartialEq, Eq)]
pub struct Mark {
    /// The number of steps of the journal after the group's last `collect` or, if it had a block, `post`; 0 before any.
    pub steps: u64,
    /// The GVT that its last `collect` saw, in ns; 0 before any.
    pub seen: Time,
}

/// The mark of a group, with the steps that the journal had then. A group in hand has one, and the exchange has one for each group. Both are halves
/// of one value, and always equal.
#[derive(Drop)]
pub struct Standing {
    /// The steps that the journal had after the group's last `collect` or, if it had a block, `post`. It has no bytes.
    pub last: Snapshot<Steps>,
    /// The number of these steps.
    pub steps: u64,
    /// The GVT that its last `collect` saw, in ns; 0 before any.
    pub seen: Time,
}

impl Standing {
    /// Of a group that has no step in the journal yet.
    pub(crate) fn unplaced(alloc: Global) -> Self
        ensures { IsUnplaced result }
    {
        let none = Steps::new(alloc, false);
        Standing {
            last: Snapshot::of(&none),
            steps: 0,
            seen: Time::default(),
        }
    }
}

/// A group collects or posts when the journal has these steps, and has seen GVT at this moment, in ns: so it stands from now on, and both halves of its
/// mark have it.
pub(crate) fn stand_here(
    standing: &mut Standing,
    marks: &mut Vec<LeftHalf<Standing>>,
    half: &mut RightHalf<Standing>,
    group: u16,
    journal: &Steps,
    seen: Time,
)
    requires within { group < length marks.old.items }
    requires one { slice_index (map (λ b. b.name) marks.old.items) group ≡ half.old.name }
    ensures last { last_in standing.new ≡ journal.now.steps }
    ensures steps { standing.new.steps ≡ length journal.now.steps }
    ensures seen { standing.new.seen ≡ seen }
    ensures marks { map (λ b. b.value) marks.new.items ≡ set (map (λ b. b.value) marks.old.items) group standing.new }
    ensures mark { half.new.value ≡ standing.new }
    ensures names { map (λ b. b.name) marks.new.items ≡ map (λ b. b.name) marks.old.items }
    ensures name { half.new.name ≡ half.old.name }
{
    *standing = Standing {
        last: Snapshot::of(journal),
        steps: journal.len(),
        seen,
    };
    tell_both(marks, half, group, standing);
}

/// Both halves of the standing of a group become this one.
pub(crate) fn tell_both(
    marks: &mut Vec<LeftHalf<Standing>>,
    half: &mut RightHalf<Standing>,
    group: u16,
    mark: &Standing,
)
    requires within { group < length marks.old.items }
    requires one { slice_index (map (λ b. b.name) marks.old.items) group ≡ half.old.name }
    ensures marks { map (λ b. b.value) marks.new.items ≡ set (map (λ b. b.value) marks.old.items) group mark.now }
    ensures mark { half.new.value ≡ mark.now }
    ensures names { map (λ b. b.name) marks.new.items ≡ map (λ b. b.name) marks.old.items }
    ensures name { half.new.name ≡ half.old.name }
{
    let own = &mut marks[usize::from(group)];
    tell(own, half, mark);
}
