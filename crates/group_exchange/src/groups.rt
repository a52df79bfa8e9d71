//! What the groups of a run share.
ghost use Rattle.std.specs.Prelude.{◌≡◌, ◌<◌, ◌≤◌, length};
ghost use Rattle.reverse.specs.Rules.{rules_of};
ghost use Rattle.reverse.specs.Setting.{simulation_of};
ghost use Rattle.group_exchange.specs.Views.{world_after};
ghost use Rattle.group_exchange.specs.Keeps.{AreGrouped};

use crate::mark::Standing;
use crate::run_of::GroupRun;
use crate::steps::Steps;
use group_boxes::Boxes;
use gvt::Floors;
use halves::LeftHalf;
use reverse::Actor;
use std::marker::{Model, PhantomData};
use vlink::Time;

/// Letters in transit between groups, a floor for each group and GVT, the journal of what all did, and a mark for each group. A journal
/// that is not stored exists in proofs alone.
#[derive(Drop)]
pub struct GroupExchange<R: Actor, J: GroupRun<R>> {
    pub(crate) boxes: Boxes,
    /// The floor of each group: the least of its processes.
    pub(crate) floors: Floors,
    pub(crate) gvt: Time,
    pub(crate) journal: Steps,
    /// The half of the mark of each group, in order. They have no bytes.
    pub(crate) marks: Vec<LeftHalf<Standing>>,
    pub(crate) limit: u64,
    /// The moment after the end of the run.
    pub(crate) end: Time,
    pub(crate) of: PhantomData<(J, R)>,
}

impl<R: Actor, J: GroupRun<R>> Model for GroupExchange<R, J> {
    ghost use Rattle.std.specs.Prelude.{◌≡◌, ◌≤◌, ◌^◌, suc, length, map};
    ghost use Rattle.reverse.specs.Rules.{rules_of};
    ghost use Rattle.group_exchange.specs.Views.{Ledger, marks_in};
    ghost use Rattle.group_exchange.specs.Keeps.{IsRecorded};

    ghost Value = { Ledger };

    ghost view = { λ x. record { steps = x.journal.steps; marks = marks_in (map (λ b. b.value) x.marks.items); limit = x.limit } };

    ghost invariant = { λ x. (length x.journal.steps ≤ x.limit) × (x.limit ≤ 2 ^ 62) × (x.end ≡ suc J.setting.until) ×
        IsRecorded (rules_of R.plain) R.number R.end R.is_placed J.setting J.owners (length J.names)
        x.journal.steps x.boxes x.floors x.gvt (map (λ b. b.value) x.marks.items) ×
        (map (λ b. b.name) x.marks.items ≡ J.names) × (x.journal.keeps ≡ J.keeps) };
}

impl<R: Actor, J: GroupRun<R>> GroupExchange<R, J> {
    /// Returns the number of groups.
    pub fn groups(&self) -> u16
        ensures count { result ≡ length J.names }
        ensures grouped { AreGrouped J.setting.processes result J.owners }
    {
        self.floors.processes()
    }

    /// Returns GVT, in ns.
    pub fn gvt(&self) -> Time
        ensures { result ≡ (world_after (simulation_of (rules_of R.plain) J.setting) self.now.steps).gvt }
    {
        self.gvt
    }

    /// Returns the number of steps of the journal.
    pub fn steps(&self) -> u64
        ensures { result ≡ length self.now.steps }
    {
        self.journal.len()
    }
}
