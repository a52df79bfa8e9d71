//! How long frames wait at a port with two priorities, and how many bytes wait.
ghost use Rattle.port_bounds.specs.Delays.{AreHighBounded, AreLowBounded, IsBacklogBounded};

/// Let what arrives at the port have an arrival curve, a burst and a rate, and let the port serve no slower than that rate. Then, as in
/// network calculus (Cruz, "A calculus for network delay", IEEE Trans. Information Theory 37(1), 1991):
///
/// - `high`: a high frame has left, with its gap, once the port has had time for the burst of high frames and one low frame.
/// - `low`: a low frame starts once the port has had time for both bursts, minus the frame itself, at the rate that high frames leave.
/// - `backlog`: the frames that wait cost no more than both bursts.
///
/// This covers each list of events in which moments do not fall and the line is freed just when a frame has left. Frames put at the moment
/// at which the line is freed may come before that or after it.
pub fn delays_law()
    ensures high { AreHighBounded }
    ensures low { AreLowBounded }
    ensures backlog { IsBacklogBounded }
{}
