//! An output port as the port of which bounds are known.
ghost use Rattle.element_bounds.specs.PortTrace.{ArePortsSame};

/// Whatever happens to an output port, it does what the port of `port_bounds` does to which the same happens, without the frames that the
/// former drops and the Frees that find it idle: the same frames wait, and the same frames start at the same moments. So the bounds of the
/// latter are bounds of the former.
pub fn port_trace_law()
    ensures same { ArePortsSame }
{}
