//! The moments up to which a group works.
ghost use Rattle.std.specs.Prelude.{◌≡◌, ◌+◌, min};

use vlink::Time;

/// The moments, in ns, up to which a group works.
#[derive(Clone, Copy)]
pub struct Reach {
    /// Earlier messages are handled.
    pub ahead: Time,
    /// Earlier done events are committed.
    pub good: Time,
}

impl Reach {
    /// Returns the reach of a group that has seen GVT at this moment. It runs ahead of GVT by `window`, in ns, and not past the end. No
    /// letter that is still to come is earlier than GVT, so events before it can no longer be undone.
    pub fn of(seen: Time, window: u64, end: Time) -> Self
        ensures ahead { result.ahead ≡ min (seen + window) end }
        ensures good { result.good ≡ seen }
    {
        Reach {
            ahead: limit_of(seen, window, end),
            good: seen,
        }
    }
}

/// Returns the moment `window` after `seen`, or the end if that is earlier.
fn limit_of(seen: Time, window: u64, end: Time) -> Time
    ensures { result ≡ min (seen + window) end }
{
    match Time::until(seen.ns().saturating_add(window), end) {
        Some(limit) => limit,
        None => end,
    }
}
