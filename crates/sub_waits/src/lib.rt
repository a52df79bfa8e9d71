//! How long the regulators of a network hold frames of virtual links that have sub-virtual links. No product code.
#![tactic(auto)]

ghost use Rattle.sub_waits.specs.Held.{AreSubsHeld};

/// In the one-thread run a regulator with any number of sub-virtual links holds no frame longer than jitter + BAG - period, if frames are offered by
/// a period that is no shorter than the BAG and longer than the jitter. At most one frame waits then, so it does not matter whose turn is next.
pub fn subs_law()
    ensures { AreSubsHeld }
{}
