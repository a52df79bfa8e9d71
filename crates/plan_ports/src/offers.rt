//! The first messages of a network.
ghost use Rattle.port_turns.specs.Nodes.{IsOfNodes};
ghost use Rattle.seqsim.specs.Networks.{setting_of};
ghost use Rattle.plan_ports.specs.Links.{AreOffers};

use network::Network;

/// The processes of a network are nodes and lines that know their numbers and the end of the run, and its first messages are offers
/// (`nodes`). Each offer is a frame of one of its virtual links, at the node that is its source (`offers`).
pub fn offered_law(network: &Network)
    ensures nodes { IsOfNodes (setting_of network.now) }
    ensures offers { AreOffers network.now }
{
    network.accepted_law();
}
