//! The rows of a process in hand that can no longer change.
ghost use Rattle.std.specs.Prelude.{◌≡◌, ◌≤◌, ◌↔◌, ℕ, [], max, IsTrue, IfSome};
ghost use Rattle.vlink.specs.Order.{message_order};
ghost use Rattle.virtual_time.specs.Law.{rowed, rows_at, earlier, one};
ghost use Rattle.reverse.specs.Rules.{rules_of};
ghost use Rattle.reverse.specs.Setting.{simulation_of};
ghost use Rattle.row_times.specs.Within.{rows_within};

use crate::held::Held;
use crate::run_of::ActorRun;
use reverse::{Actor, actor_law, actor_rules_law};
use row_times::{count_before, rows_in_time};
use vlink::{Row, Time};

impl<R: Actor, J: ActorRun<R>> Held<R, J> {
    /// Whether its events before a moment, in ns, are all committed and can no longer change: the moment is not later than the GVT that it
    /// saw, and no done event is earlier.
    pub fn is_committed_before(&self, moment: Time) -> bool
        ensures { IsTrue result ↔ ((moment ≤ self.now.mark.seen) × (earlier message_order moment self.now.part.done ≡ [])) }
    {
        actor_rules_law::<R>();
        moment.ns() <= self.standing.seen.ns() && is_none_before(self.process.oldest(), moment)
    }

    /// Returns the rows of its committed events whose moments are at or after `from` and before `to`, in ns, in their order. None of these
    /// has left, since `from` is not earlier than `gone`.
    ///
    /// - `rows`: they are such rows of its committed events.
    /// - `whole`: if its events before `to` are all committed and can no longer change, they are all such rows that the one-thread run has
    ///   of it.
    pub fn rows_between(&self, from: Time, to: Time) -> &[Row]
        requires { self.now.gone ≤ from }
        ensures rows { result.now
            ≡ rows_within (rules_of R.plain) from to (rowed (rules_of R.plain) (J.setting.opening self.now.number) self.now.part.committed) }
        ensures whole { to ≤ self.now.mark.seen → earlier message_order to self.now.part.done ≡ [] →
            (event_count : ℕ) → (one (simulation_of (rules_of R.plain) J.setting) event_count).waiting ≡ [] → result.now
            ≡ rows_within (rules_of R.plain) from to (rows_at self.now.number
            (one (simulation_of (rules_of R.plain) J.setting) event_count).rows) }
    {
        actor_law::<R>();
        rows_in_time(self.process.sealed(), from, to)
    }

    /// Lets the rows of its committed events leave that are earlier than a moment, in ns. Takes no memory.
    pub fn let_rows_go(&mut self, moment: Time)
        ensures { self.new ≡ record self.old { gone = max self.old.gone moment } }
    {
        actor_law::<R>();
        let count = count_before(self.process.sealed(), moment);
        let _gone = self.process.let_rows_go(count);
        self.gone = later_of(self.gone, moment);
    }
}

/// Whether the oldest of some events, if any, is not before a moment.
fn is_none_before(oldest: Option<Time>, moment: Time) -> bool
    ensures { IsTrue result ↔ IfSome oldest (λ time. moment ≤ time) }
{
    match oldest {
        Some(time) => moment <= time,
        None => true,
    }
}

/// Returns the later of two moments.
fn later_of(one: Time, other: Time) -> Time
    ensures { result ≡ max one other }
{
    one.max(other)
}
