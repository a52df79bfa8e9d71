//! The virtual links of a network at its nodes.
ghost use Rattle.plan_ports.specs.Links.{AreBags, AreGreatest, AreRegulatorsEmpty, AreSizes, AreSources, AreTransits, HaveSources, HaveTransits};

use network::Network;

/// The virtual links at the nodes of a network when a run begins. A switch has an account for each virtual link that leaves it
/// (`have_transits`), and an end system has a regulator for each that leaves it (`have_sources`), with no frame in it (`empty`). They have
/// no others (`transits`, `sources`). A virtual link is found by its number (`sizes`). 128 ms are a whole number of its BAGs (`bags`). Its
/// greatest frame has at least one byte, and no frame has more than 1518 (`greatest`).
pub fn links_law(network: &Network)
    ensures sizes { AreSizes network.now }
    ensures bags { AreBags network.now }
    ensures greatest { AreGreatest network.now }
    ensures transits { AreTransits network.now }
    ensures have_transits { HaveTransits network.now }
    ensures sources { AreSources network.now }
    ensures have_sources { HaveSources network.now }
    ensures empty { AreRegulatorsEmpty network.now }
{
    network.accepted_law();
}
