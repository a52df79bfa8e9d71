//! A process in hand.
ghost use Rattle.std.specs.Prelude.{◌≡◌, ◌<◌, length};

use crate::mark::{Mark, Standing};
use crate::run_of::ActorRun;
use halves::RightHalf;
use journal::Block;
use process_queues::Process;
use reverse::{Actor, Outbound};
use std::alloc::Global;
use std::marker::{Model, PhantomData};
use vlink::Time;

/// A process, the block of the steps that it did alone since its last post, and its mark: its last entry in the journal, and the GVT that
/// it saw. Rows of its committed events can leave it, the oldest ones first.
#[derive(Drop)]
pub struct Held<R: Actor, J: ActorRun<R>> {
    pub(crate) process: Process<R>,
    pub(crate) number: u16,
    /// How many messages it handled, counting those that it handled again.
    pub(crate) runs: u64,
    pub(crate) block: Block,
    pub(crate) standing: Standing,
    /// The process's half of the mark. It has no bytes.
    pub(crate) mark: RightHalf<Standing>,
    /// The rows of committed events that have left are of moments before this one.
    pub(crate) gone: Time,
    /// Room for what one event sends and notes.
    pub(crate) out: Outbound,
    pub(crate) alloc: Global,
    pub(crate) of: PhantomData<J>,
}

impl<R: Actor, J: ActorRun<R>> Model for Held<R, J> {
    ghost use Rattle.std.specs.Prelude.{map};
    ghost use Rattle.virtual_time.specs.Law.{local, after_moves, after_own};
    ghost use Rattle.reverse.specs.Rules.{rules_of};
    ghost use Rattle.reverse.specs.Setting.{simulation_of};
    ghost use Rattle.process_exchange.specs.Views.{HeldState, mark_in, own_of};
    ghost use Rattle.process_exchange.specs.Keeps.{Holds, Tells};

    ghost Value = { HeldState R };

    ghost view = { λ h. record {
      number = h.number;
      part = after_moves (rules_of R.plain) (J.setting.opening h.number) h.block
          (after_own (simulation_of (rules_of R.plain) J.setting) h.number (own_of h.number h.standing.last));
      block = h.block;
      own = own_of h.number h.standing.last;
      mark = mark_in h.standing;
      gone = h.gone;
    } };

    ghost invariant = { λ h. Holds (rules_of R.plain) R.number R.end R.is_placed J.setting R.is_value
        h.number h.standing.seen h.gone h.block (own_of h.number h.standing.last) h.process.queues × Tells J.names h.number h.mark h.standing };
}

impl<R: Actor, J: ActorRun<R>> Held<R, J> {
    /// Returns its number, from 0.
    pub fn number(&self) -> u16
        ensures number { result ≡ self.now.number }
        ensures within { self.now.number < J.setting.processes }
    {
        self.number
    }

    /// Returns the number of steps of its block, which it did alone since its last post.
    pub fn pending(&self) -> u64
        ensures { result ≡ length self.now.block }
    {
        self.block.len() as u64
    }

    /// Returns its mark.
    pub fn mark(&self) -> Mark
        ensures { result ≡ self.now.mark }
    {
        let place = match &self.standing.last {
            Some(last) => Some(last.place),
            None => None,
        };
        Mark {
            place,
            seen: self.standing.seen,
        }
    }

    /// Returns the moment, in ns, before which rows of its committed events may have left. None has left if it is 0.
    pub fn gone_before(&self) -> Time
        ensures { result ≡ self.now.gone }
    {
        self.gone
    }
}
