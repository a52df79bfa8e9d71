//! No two groups in hand have one number.
ghost use Rattle.std.specs.Prelude.{◌≡◌, ◌≢◌};

use crate::group::Group;
use crate::groups::GroupExchange;
use crate::mark::Standing;
use crate::run_of::GroupRun;
use halves::{agree_law, tell};
use reverse::Actor;
use std::snapshot::Snapshot;

impl<R: Actor, J: GroupRun<R>> GroupExchange<R, J> {
    /// Two groups in hand have different numbers. If they had one number, their halves of its mark would be the same, and would stay so when
    /// the exchange and one of them change theirs.
    pub fn apart_law(&mut self, one: &mut Group<R, J>, other: &Group<R, J>)
        ensures apart { one.old.number ≢ other.now.number }
        ensures exchange { self.new ≡ self.old }
        ensures one { one.new ≡ one.old }
    {
        let _limit = self.limit;
        let _other = other.number;
        if one.number == other.number {
            let steps = if other.standing.steps == 0 { 1 } else { 0 };
            let changed = Standing {
                last: Snapshot::of(&self.journal),
                steps,
                seen: other.standing.seen,
            };
            let half = &mut self.marks[usize::from(one.number)];
            tell(half, &mut one.mark, &changed);
            agree_law(half, &other.mark);
            unreachable!()
        }
    }
}
