//! Fossil collection of one process.
ghost use Rattle.std.specs.Prelude.{◌≡◌, ◌<◌, ◌≤◌, OnOk, OnErr, IfOk};
ghost use Rattle.virtual_time.specs.Law.{one_if};
ghost use Rattle.reverse.specs.Rules.{rules_of};
ghost use Rattle.process_queues.specs.Queues.{AtEachPart, Does};
ghost use Rattle.fossil.specs.Committed.{is_moment_before, is_ready, committed_times, committed_below, committed_once};

use antimessages::OutOfMemory;
use process_queues::Process;
use reverse::{Actor, actor_rules_law};
use vlink::Time;

/// Fossil collection (Jefferson, "Virtual Time", ACM TOPLAS 7(3), 1985). It commits done events that are earlier than `gvt`, in ns, the
/// oldest first, until it has committed `n`, none is left, or the signed count of one is not 1. Returns how many it committed. An event at
/// `gvt` itself is not committed. A refusal commits none.
///
/// This call is for users of single processes, who commit several events at one go. No command uses it: `actor_world` and
/// `process_exchange` commit one event after another by `Process::seal_oldest`.
///
/// - `committed`: the part that the process represents, after this number of commits of its oldest done event.
/// - `answer`: how many events are committed, for each part that the process represented.
/// - `one`, `one_part`: of one event at most, whether such an event existed, and what became of the part.
/// - `reserved`: a refusal comes only if not all of them can be counted.
pub fn commit<R: Actor>(process: &mut Process<R>, gvt: Time, n: u64) -> Result<u64, OutOfMemory>
    ensures committed { IfOk result (λ count. Does (rules_of R.plain) R.is_value (λ opening. committed_times (rules_of R.plain) count) process.old.queues process.new.queues) }
    ensures answer { IfOk result (λ count. AtEachPart (rules_of R.plain) R.is_value process.old.queues (λ opening part.
        count ≡ committed_below (rules_of R.plain) gvt n part)) }
    ensures one { n ≡ 1 → IfOk result (λ count. AtEachPart (rules_of R.plain) R.is_value process.old.queues (λ opening part.
        count ≡ one_if (is_ready (rules_of R.plain) gvt part))) }
    ensures one_part { n ≡ 1 → OnOk result (Does (rules_of R.plain) R.is_value (λ opening. committed_once (rules_of R.plain) gvt) process.old.queues process.new.queues) }
    ensures within { IfOk result (λ count. count ≤ n) }
    ensures none { IfOk result (λ count. count ≡ 0 → process.new.queues ≡ process.old.queues) }
    ensures tray { process.new.queues.tray ≡ process.old.queues.tray }
    ensures left { process.new.queues.left ≡ process.old.queues.left }
    ensures outbox { process.new.queues.outbox ≡ process.old.queues.outbox }
    ensures unchanged { OnErr result (process.new.queues ≡ process.old.queues) }
    ensures reserved { OnErr result (AtEachPart (rules_of R.plain) R.is_value process.old.queues (λ opening part.
        process.old.committed_room < committed_below (rules_of R.plain) gvt n part)) }
{
    actor_rules_law::<R>();
    let count = process.committable(gvt, n as usize);
    if process.reserve_rows(count).is_err() {
        return Err(OutOfMemory);
    }
    for committed in 0..count {
        let _done = process.seal_oldest();
    }
    Ok(count as u64)
}

/// Whether the moment exists and is earlier than the limit. For the oldest done event and GVT, in ns, this means that the event can no
/// longer be undone.
pub fn is_early(moment: Option<Time>, limit: Time) -> bool
    ensures { result ≡ is_moment_before limit moment }
{
    match moment {
        Some(moment) => moment < limit,
        None => false,
    }
}
