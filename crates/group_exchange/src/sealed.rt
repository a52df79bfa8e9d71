//! The rows of a group that can no longer change.
ghost use Rattle.std.specs.Prelude.{◌≡◌, ◌≤◌, ◌↔◌, ℕ, [], All, IsTrue, max, true, false};
ghost use Rattle.vlink.specs.Order.{message_order};
ghost use Rattle.virtual_time.specs.Law.{earlier, one, rowed, rows_at};
ghost use Rattle.reverse.specs.Rules.{rules_of};
ghost use Rattle.reverse.specs.Setting.{simulation_of};
ghost use Rattle.row_times.specs.Within.{rows_within};
ghost use Rattle.group_queues.specs.DoneEvents.{messages_of};
ghost use Rattle.group_exchange.specs.Rows.{rows_of_group};
ghost use Rattle.group_exchange.specs.Views.{in_group, is_of};

use crate::group::Group;
use crate::run_of::GroupRun;
use reverse::{Actor, actor_law};
use row_times::rows_in_time;
use vlink::{Row, Time};

impl<R: Actor, J: GroupRun<R>> Group<R, J> {
    /// Whether its events before a moment, in ns, are all committed and can no longer change: the moment is not later than the GVT that it
    /// saw, and no done event is earlier.
    pub fn is_committed_before(&self, moment: Time) -> bool
        ensures all { IsTrue result ↔ ((moment ≤ self.now.seen) × All (λ m. moment ≤ m.time) (messages_of self.now.held.done)) }
        ensures each { result ≡ true → (p : ℕ) → is_of J.owners self.now.number p ≡ true →
            earlier message_order moment ((in_group (simulation_of (rules_of R.plain) J.setting) self.now).parts p).done ≡ [] }
    {
        actor_law::<R>();
        moment.ns() <= self.standing.seen.ns() && !self.hand.is_done_before(moment)
    }

    /// Returns the rows of its committed events, in their order, without those that have left.
    ///
    /// - `each`: if none has left, they are, at each of its processes, all rows of its committed events.
    /// - `others`: none is of a process of another group.
    pub fn sealed(&self) -> &[Row]
        ensures each { self.now.gone ≡ 0 → (p : ℕ) → is_of J.owners self.now.number p ≡ true → rows_at p result.now
            ≡ rowed (rules_of R.plain) (J.setting.opening p) ((in_group (simulation_of (rules_of R.plain) J.setting) self.now).parts p).committed }
        ensures others { (p : ℕ) → is_of J.owners self.now.number p ≡ false → rows_at p result.now ≡ [] }
    {
        actor_law::<R>();
        self.hand.rows()
    }

    /// Returns the rows of its committed events whose moments are at or after `from` and before `to`, in ns, in their order. None of these
    /// has left, since `from` is not earlier than `gone`.
    ///
    /// - `rows`: they are such rows of its committed events.
    /// - `whole`: if its events before `to` are all committed and can no longer change, they are all such rows that the one-thread run has
    ///   of its processes, in its order.
    pub fn rows_between(&self, from: Time, to: Time) -> &[Row]
        requires { self.now.gone ≤ from }
        ensures rows { result.now ≡ rows_within (rules_of R.plain) from to self.now.held.rows.all }
        ensures whole { to ≤ self.now.seen → ((p : ℕ) → is_of J.owners self.now.number p ≡ true →
            earlier message_order to ((in_group (simulation_of (rules_of R.plain) J.setting) self.now).parts p).done ≡ []) →
            (event_count : ℕ) → (one (simulation_of (rules_of R.plain) J.setting) event_count).waiting ≡ [] → result.now
            ≡ rows_within (rules_of R.plain) from to (rows_of_group J.owners self.now.number
            (one (simulation_of (rules_of R.plain) J.setting) event_count).rows) }
    {
        actor_law::<R>();
        rows_in_time(self.hand.rows(), from, to)
    }

    /// Lets the rows of its committed events leave that are earlier than a moment, in ns, the oldest first. If memory is refused for it,
    /// some may stay.
    pub fn let_rows_go(&mut self, moment: Time)
        ensures gone { self.new.gone ≡ max self.old.gone moment }
        ensures others { self.new ≡ record self.old { held = self.new.held; gone = self.new.gone } }
        ensures rows { self.new.held ≡ record self.old.held { rows = record self.old.held.rows { left = self.new.held.rows.left } } }
    {
        actor_law::<R>();
        let _refused = self.hand.let_rows_go(moment);
        self.gone = later_of(self.gone, moment);
    }
}

/// Returns the later of two moments.
fn later_of(one: Time, other: Time) -> Time
    ensures { result ≡ max one other }
{
    one.max(other)
}
