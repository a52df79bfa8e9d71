//! When a regulator releases frames.
ghost use Rattle.element_bounds.specs.Releases.{AreReleasesApart, AreReleasesPaced};

/// A regulator releases frames at least one BAG apart (ARINC 664 Part 7), from every state and whatever happens to it: offers that it
/// drops, Releases for which it did not ask, and moments that fall.
pub fn spacing_law()
    ensures apart { AreReleasesApart }
    ensures paced { AreReleasesPaced }
{}
