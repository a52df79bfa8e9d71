//! The interval of the trace that begins at a moment.
ghost use Rattle.std.specs.Prelude.{◌≡◌, ◌<◌, ℕ, IfSome, IfNone};
ghost use Rattle.vlink.specs.declared.time.TheConstants.{GREATEST_NS};
ghost use Rattle.trace_segments.specs.Words.{cut, HasInterval};

use trace_segments::{cut, width};
use vlink::Time;

/// Returns the number of the interval that begins at this moment (ns), if an interval begins there.
pub fn interval_at(until: Time, moment: Time) -> Option<u64>
    requires { until < GREATEST_NS }
    ensures some { IfSome result (λ k. HasInterval until k × (moment ≡ cut until k)) }
    ensures none { IfNone result ((k : ℕ) → HasInterval until k → moment ≡ cut until k → ⊥) }
    ensures few { IfSome result (λ k. k < 1024) }
{
    let k = moment.ns() / width(until).ns();
    if until.ns() < moment.ns() {
        return None;
    }
    if cut(until, k).ns() != moment.ns() {
        return None;
    }
    Some(k)
}
