//! How long the regulators of a network hold frames. No product code.
#![tactic(auto)]

ghost use Rattle.plan_waits.specs.Held.{AreListsHeld, ArePeriodsHeld};

use network::Network;

/// In the one-thread run of a network a regulator holds a frame no longer than one BAG for each frame that its lists have room for (`lists`). If
/// one stream offers bursts that come in order and leave time for the BAGs of each, and no other list may be served first, it holds a frame no longer
/// than the BAGs of the frames before it in its burst, and what those of a burst and its lateness are beyond the period (`periods`).
pub fn waits_law(network: &Network)
    ensures lists { AreListsHeld network.now }
    ensures periods { ArePeriodsHeld network.now }
{
    network.accepted_law();
}
