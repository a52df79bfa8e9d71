//! How long frames are in transit in the one-thread run of a network. No product code.
#![tactic(auto)]

ghost use Rattle.frame_ages.specs.Latencies.{AreLatenciesBounded};
ghost use Rattle.frame_ages.specs.Ports.{AreHighsInTime, AreLowsInTime};
ghost use Rattle.frame_ages.specs.Rooms.{AreFramesKept};
ghost use Rattle.frame_ages.specs.Sizes.{AreAllSized};
ghost use Rattle.frame_ages.specs.Waits.{AreListsHeld, ArePeriodsHeld};

/// In the one-thread run each frame has the size of its virtual link.
pub fn sizes_law()
    ensures sized { AreAllSized }
{}

/// In the one-thread run frames wait no longer at an output port than its numbers state, if these pass the check. They count each virtual
/// link that goes out there with its BAG, with the jitter of its account at a switch, and with the size of its frames: the greatest that is offered,
/// or at a switch Smax, as its account lets none pass that is longer. If the account counts bytes, they may count the bytes that it lets pass. They
/// count each line by which frames come with the greatest of these sizes.
pub fn ports_law()
    ensures high { AreHighsInTime }
    ensures low { AreLowsInTime }
{}

/// In the one-thread run no frame of a virtual link is delivered at a node later after its offer than its regulator holds it and its way
/// takes: the sum of the bounds of the ports on the way, the propagation times of the lines and the latencies of the switches. If the
/// virtual link uses both networks, that is the longer of the two ways.
pub fn latencies_law()
    ensures bounded { AreLatenciesBounded }
{}

/// In the one-thread run a regulator holds a frame no longer than full lists take, one BAG for each frame in the lists of all sub-virtual links
/// (`lists`). Without sub-virtual links, if frames are offered by a period, each with a jitter, and neither the BAG nor the jitter is longer than the
/// period, it holds none longer than jitter + BAG - period (`periods`), also where it drops others.
pub fn waits_law()
    ensures lists { AreListsHeld }
    ensures periods { ArePeriodsHeld }
{}

/// In the one-thread run a node whose ports have room drops no frame because a port is full: at each of its ports the bound of the bytes that wait,
/// with the frame that is put, is no more than the port's bytes.
pub fn rooms_law()
    ensures kept { AreFramesKept }
{}
