//! Which frames a port starts, and how far apart.
ghost use Rattle.port_bounds.specs.Starts.{AreHighStartsPut, AreLowStartsPut, AreStartsApart};

/// A port starts a frame only once the one before it, and the gap, have left (`apart`), and only a frame that was put, with that
/// priority (`high`, `low`).
pub fn starts_law()
    ensures apart { AreStartsApart }
    ensures high { AreHighStartsPut }
    ensures low { AreLowStartsPut }
{}
