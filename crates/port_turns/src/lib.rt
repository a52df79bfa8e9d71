//! Ports of end systems and switches in the one-thread run of a network. No product code.
#![tactic(auto)]

ghost use Rattle.port_turns.specs.Arrivals.{AreArrivalsSerial, AreTracesSerial};
ghost use Rattle.port_turns.specs.PortEvents.{ArePortsAsked};
ghost use Rattle.port_turns.specs.PortRuns.{ArePortsServed, AreSourceTracesPaced, AreTracesMetered, AreTracesPaced};
ghost use Rattle.port_turns.specs.PortTimer.{ArePortsOnTime};

/// What a message does at an output port of a node: it causes at most one event of the port, and the port handles just that.
pub fn port_events_law()
    ensures asked { ArePortsAsked }
{}

/// In the one-thread run a port of a node is freed at just the moment at which its frame and the gap behind it have left, and nothing comes
/// to the node later than that while the port is busy. A PortFree after the end of the run does not come.
pub fn port_timer_law()
    ensures on_time { ArePortsOnTime }
{}

/// In the one-thread run the events of a port of a node, as the port of `port_bounds` sees them, come at moments that do not fall, and that
/// port is freed at just the moment at which its frame has left. So the bounds of `port_bounds` hold for it. At a switch the frames of each
/// virtual link among them are paced by its account, if that counts frames: n of them from t to u have n * BAG <= BAG + jitter + (u - t). If it
/// counts bytes, b bytes of them from t to u have b * BAG <= Smax * (BAG + jitter + (u - t)).
/// At its end system they are one BAG apart, from every state in which regulators hold frames of their own virtual links alone, and
/// whatever messages come.
pub fn port_runs_law()
    ensures served { ArePortsServed }
    ensures paced { AreTracesPaced }
    ensures metered { AreTracesMetered }
    ensures source_paced { AreSourceTracesPaced }
{}

/// In the one-thread run the frames that come to a port by a line come one after the other: each at least the time after the one before it
/// for which it kept the line busy, with its gap (`serial`). If a switch puts some of them to one of its ports, and the line behind that
/// port is no slower, they come so there, too (`traces`). Frames that an outage takes, or that a switch refuses, do not change this. One
/// port alone leads into the line, and one line alone leads to the port.
pub fn arrivals_law()
    ensures serial { AreArrivalsSerial }
    ensures traces { AreTracesSerial }
{}
