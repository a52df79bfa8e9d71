//! The rows of the committed events: those between two moments, and those that leave.
ghost use Rattle.std.specs.Prelude.{◌≡◌, ◌+◌, ◌<◌, ◌≤◌, ◌^◌, ◌&&◌, ℕ, filter, length, map, nat_le, nat_lt, true, false};
ghost use Rattle.vlink.specs.declared.message.Message.{Message};
ghost use Rattle.virtual_time.specs.Law.{rowed, Part};
ghost use Rattle.reverse.specs.Rules.{rules_of};
ghost use Rattle.process_queues.specs.Queues.{AtEachPart, StandsFor, Does, rows_there};
ghost use Rattle.row_times.specs.Within.{rows_within, AreInTime, AreFirstBefore, AreFrom};

use process_queues::Process;
use reverse::Actor;
use row_times::{count_before, rows_in_time};
use vlink::{Row, Time};

/// Returns the rows of committed events whose moments are at or after `from` and before `to`, in their order. The moments of all rows of
/// committed events must not fall; those of a safe process do not. Takes no memory; its time is logarithmic in the number of rows.
///
/// - `there`: they are such rows of those that have not left.
/// - `whole`: if only rows that are earlier than `from` have left, they are all such rows.
pub fn rows_between<R: Actor>(process: &Process<R>, from: Time, to: Time) -> &[Row]
    requires { (opening : R) × (part : Part Message R) × StandsFor (rules_of R.plain) R.is_value opening part process.now.queues
        × AreInTime (rules_of R.plain) (rowed (rules_of R.plain) opening part.committed) }
    ensures there { AtEachPart (rules_of R.plain) R.is_value process.now.queues (λ opening part.
        result.now ≡ rows_within (rules_of R.plain) from to (rows_there (rules_of R.plain) opening part process.now.queues)) }
    ensures whole { AtEachPart (rules_of R.plain) R.is_value process.now.queues (λ opening part.
        AreFirstBefore (rules_of R.plain) from process.now.queues.left (rowed (rules_of R.plain) opening part.committed) →
        result.now ≡ rows_within (rules_of R.plain) from to (rowed (rules_of R.plain) opening part.committed)) }
{
    rows_in_time(process.sealed(), from, to)
}

/// Lets the rows of committed events leave that are earlier than a moment, in ns. Takes no memory.
///
/// - `stands`: the process represents what it represented before.
/// - `gone`: how many rows leave, all of them earlier than the moment.
/// - `early`: if all rows that had left are earlier than a limit that is not before the moment, so are all that have left now.
/// - `late`: those that are still here are at the moment or later, if all rows of committed events are fewer than 2^64.
pub fn let_rows_go<R: Actor>(process: &mut Process<R>, moment: Time)
    requires { (opening : R) × (part : Part Message R) × StandsFor (rules_of R.plain) R.is_value opening part process.old.queues
        × AreInTime (rules_of R.plain) (rowed (rules_of R.plain) opening part.committed) }
    ensures stands { Does (rules_of R.plain) R.is_value (λ opening part. part) process.old.queues process.new.queues }
    ensures gone { AtEachPart (rules_of R.plain) R.is_value process.old.queues (λ opening part.
        (count : ℕ) × (process.new.queues.left ≡ process.old.queues.left + count)
        × AreFirstBefore (rules_of R.plain) moment count (rows_there (rules_of R.plain) opening part process.old.queues)) }
    ensures early { AtEachPart (rules_of R.plain) R.is_value process.old.queues (λ opening part. (limit : ℕ) → moment ≤ limit →
        AreFirstBefore (rules_of R.plain) limit process.old.queues.left (rowed (rules_of R.plain) opening part.committed) →
        AreFirstBefore (rules_of R.plain) limit process.new.queues.left (rowed (rules_of R.plain) opening part.committed)) }
    ensures late { AtEachPart (rules_of R.plain) R.is_value process.old.queues (λ opening part.
        length (rowed (rules_of R.plain) opening part.committed) < 2 ^ 64 →
        AreFrom (rules_of R.plain) moment (rows_there (rules_of R.plain) opening part process.new.queues)) }
{
    let count = count_before(process.sealed(), moment);
    let _gone = process.let_rows_go(count);
}
