//! What can arrive at a port.
ghost use Rattle.port_bounds.specs.Arrivals.{AreFewerSerial, ArePacedWithin, AreSerialWithin, AreSpacedWithin};
ghost use Rattle.port_bounds.specs.Mixtures.{AreMixturesWithin};
ghost use Rattle.port_bounds.specs.Pacing.{AreFewerPaced};

/// Arrival curves of what arrives at a port:
///
/// - `paced`: of a virtual link, as an account or a regulator lets it pass.
/// - `spaced`: of the same virtual link, by the least time between two of its frames. Its burst is one frame, and its rate is greater.
/// - `serial`: of a line that is no faster than the port's own, as it sends one frame after the other.
/// - `mixture`: of all that arrives, by each line and of its virtual links. Any mixture of both is a curve, so a bad choice of weights
///   makes a bound greater, and never wrong.
/// - `fewer_paced`, `fewer_serial`: if frames are refused, dropped or lost on the way, the others still meet their curve.
pub fn arrivals_law()
    ensures paced { ArePacedWithin }
    ensures spaced { AreSpacedWithin }
    ensures serial { AreSerialWithin }
    ensures mixture { AreMixturesWithin }
    ensures fewer_paced { AreFewerPaced }
    ensures fewer_serial { AreFewerSerial }
{}
