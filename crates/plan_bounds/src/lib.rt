//! The bounds of a network hold in its one-thread run, and in those of the networks that agree with it. No product code.
#![tactic(auto)]

ghost use Rattle.plan_bounds.specs.Columns.{AreContractTextsTrue, AreTextsTrue};
ghost use Rattle.plan_bounds.specs.Contract.{AreContractBounds, AreContractRooms};
ghost use Rattle.plan_bounds.specs.Latencies.{AreLatencyBounds};
ghost use Rattle.plan_bounds.specs.Rooms.{AreRoomsEnough};
ghost use Rattle.plan_bounds.specs.Shapes.{AreShapeBounds, AreShapeRooms};

use frame_ages::rooms_law;
use least_ages::{ages_law, ports_law};
use network::Network;
use plan_waits::waits_law;
use seqsim::network_law;

/// In the one-thread run of a network no frame of a virtual link is delivered at a destination later after its offer
/// than its bound there says: the bound of the network and the longest wait in the regulator, as `network_bounds` writes them, with the frames that
/// the network states or by contract (`latencies`). A node drops no frame because a port is full, if at each of its ports the bound of what waits is no
/// more than may wait there (`rooms`).
pub fn bounds_law(network: &Network)
    ensures latencies { AreLatencyBounds network.now }
    ensures rooms { AreRoomsEnough network.now }
{
    network.accepted_law();
    network_law(network);
    ages_law();
    rooms_law();
    waits_law(network);
}

/// The bounds of a network hold in the one-thread run of each network of its shape: whatever its seed, end time and outages are, and whatever the
/// streams of its virtual links are, if the least and the greatest frame of each virtual link are the same. The wait in the regulator is that of
/// the other network's streams.
pub fn shapes_law(shape: &Network, network: &Network)
    ensures latencies { AreShapeBounds shape.now network.now }
    ensures rooms { AreShapeRooms shape.now network.now }
{
    shape.accepted_law();
    network.accepted_law();
    network_law(network);
    ages_law();
    rooms_law();
    waits_law(network);
}

/// The bounds of a network by contract hold in the one-thread run of each network that agrees with it in nodes, lines and virtual links, whatever its
/// seed, end time and outages are, and whatever other end systems offer. The end system of the virtual link offers no frame that is longer than `smax`
/// or than the longest that the first network states for its virtual link, and of this virtual link none that is shorter than the least. The wait in
/// the regulator is that of the other network's streams (`latencies`). So do the bounds of what waits at a switch, and at an end system that keeps
/// its sizes (`rooms`).
pub fn contract_law(shape: &Network, network: &Network)
    ensures latencies { AreContractBounds shape.now network.now }
    ensures rooms { AreContractRooms shape.now network.now }
{
    shape.accepted_law();
    network.accepted_law();
    network_law(network);
    ages_law();
    rooms_law();
    waits_law(network);
}

/// What each line of a text of bounds says, column by column, holds in the one-thread run of each network of the shape (`stated`). What each line of a
/// text of bounds by contract says holds in the one-thread run of each network that agrees in nodes, lines and virtual links, of virtual links and
/// ports whose end systems keep their sizes; at switches it holds whatever is offered (`contract`).
pub fn text_law(shape: &Network)
    ensures stated { AreTextsTrue shape.now }
    ensures contract { AreContractTextsTrue shape.now }
{
    shape.accepted_law();
    ages_law();
    ports_law();
}
