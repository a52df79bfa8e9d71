//! A group of processes in hand.
ghost use Rattle.std.specs.Prelude.{◌≡◌, ◌<◌, ◌↔◌, [], length, IsTrue};

use crate::mark::{Mark, Standing};
use crate::run_of::GroupRun;
use group_hand::Hand;
use halves::RightHalf;
use reverse::Actor;
use std::alloc::Global;
use std::marker::{Model, PhantomData};
use vlink::Time;

/// A group: its processes in one hand, with the block of what they did since its last post, and its mark: the length of the journal when it
/// last collected or posted, and the GVT that it saw.
#[derive(Drop)]
pub struct Group<R: Actor, J: GroupRun<R>> {
    pub(crate) hand: Hand<R>,
    pub(crate) number: u16,
    pub(crate) standing: Standing,
    /// The group's half of the mark. It has no bytes.
    pub(crate) mark: RightHalf<Standing>,
    /// The rows of committed events that have left are of moments before this one.
    pub(crate) gone: Time,
    /// How many messages each process handled, counting those that it handled again.
    pub(crate) runs: Vec<u64>,
    /// The moment after the end of the run.
    pub(crate) end: Time,
    pub(crate) alloc: Global,
    pub(crate) of: PhantomData<J>,
}

impl<R: Actor, J: GroupRun<R>> Model for Group<R, J> {
    ghost use Rattle.std.specs.Prelude.{◌≡◌, suc, length};
    ghost use Rattle.reverse.specs.Rules.{rules_of};
    ghost use Rattle.group_exchange.specs.Views.{GroupState, last_in};
    ghost use Rattle.group_exchange.specs.Keeps.{Holds, KeepsRows, Tells};

    ghost Value = { GroupState R R.Record };

    ghost view = { λ g. record {
      number = g.number;
      held = g.hand;
      last = last_in g.standing;
      seen = g.standing.seen;
      gone = g.gone;
    } };

    ghost invariant = { λ g. Holds (rules_of R.plain) R.number R.end R.is_placed J.setting J.owners R.is_value (length J.names)
        g.number g.standing.seen (last_in g.standing) g.hand × Tells J.names g.number g.mark g.standing × (g.hand.flow.keeps ≡ J.keeps)
        × (g.standing.steps ≡ length (last_in g.standing)) × (g.end ≡ suc J.setting.until)
        × KeepsRows (rules_of R.plain) J.owners g.number g.standing.seen g.gone g.hand };
}

impl<R: Actor, J: GroupRun<R>> Group<R, J> {
    /// Returns its number, from 0.
    pub fn number(&self) -> u16
        ensures number { result ≡ self.now.number }
        ensures within { self.now.number < length J.names }
    {
        self.number
    }
}
