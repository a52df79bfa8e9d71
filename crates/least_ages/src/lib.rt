//! What the columns of the bounds say of nodes in the one-thread run: how old frames are as they are delivered, and what waits at ports. No product code.
#![tactic(auto)]

ghost use Rattle.least_ages.specs.Ages.{AreAges};
ghost use Rattle.least_ages.specs.Deliveries.{AreDeliveriesTimely};
ghost use Rattle.least_ages.specs.Ports.{AreBytesBounded, ArePortsRoomy};

/// In the one-thread run each frame of a virtual link that comes over a way is released at its offer or later, and takes from its release on at
/// least what the least frame of its virtual link takes where nothing waits (`ages`). A frame that is delivered took no longer from its release on
/// than the bounds of the ports on its way allow, and no less than that; and its regulator held it no longer than it may (`deliveries`).
pub fn ages_law()
    ensures ages { AreAges }
    ensures deliveries { AreDeliveriesTimely }
{}

/// In the one-thread run no more bytes wait at a port than its bound says (`bytes`). A port for which that is no more than its bytes drops no frame,
/// whatever the other ports of its node do (`roomy`).
pub fn ports_law()
    ensures bytes { AreBytesBounded }
    ensures roomy { ArePortsRoomy }
{}
