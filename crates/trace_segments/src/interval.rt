//! The intervals in which a trace is written.
ghost use Rattle.std.specs.Prelude.{◌≡◌, ◌+◌, ◌*◌, ◌<◌, ◌≤◌, ◌↔◌, ℕ, IsTrue};
ghost use Rattle.trace_segments.specs.Intervals.{interval_width, cut, HasInterval};

use vlink::{GREATEST_NS, Time};

/// The greatest number of intervals.
const MOST: u64 = 1024;

/// Returns the length of an interval of the trace, in ns, for a run that ends at `until`. Interval `k` begins at `k` times this width. It
/// ends before `k + 1` times the width, or before the moment after the end if that is earlier.
///
/// - `few`: at most 1,024 intervals begin at the end or before it.
pub fn width(until: Time) -> Time
    ensures value { result ≡ interval_width until }
    ensures few { (k : ℕ) → HasInterval until k → k < 1024 }
{
    Time::of_known(until.ns() / MOST + 1)
}

/// Whether interval `k` exists.
pub(crate) fn has_interval(until: Time, k: u64) -> bool
    ensures { IsTrue result ↔ HasInterval until k }
{
    k <= until.ns() / width(until).ns()
}

/// Returns where interval `k` begins and the one before it ends, in ns: at `k` times the width, but at the latest at the moment after the
/// end `until`.
pub fn cut(until: Time, k: u64) -> Time
    requires { until < GREATEST_NS }
    ensures { result ≡ cut until k }
{
    if has_interval(until, k) {
        Time::of_known(k * width(until).ns())
    } else {
        Time::of_known(until.ns() + 1)
    }
}
