//! How long a regulator holds a frame.
ghost use Rattle.port_bounds.specs.Waits.{AreWaitsBounded};

/// A regulator holds frames that are offered by a period of at least one BAG no longer than jitter + BAG - period.
pub fn waits_law()
    ensures waits { AreWaitsBounded }
{}
