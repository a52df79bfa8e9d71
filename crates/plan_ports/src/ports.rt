//! The ports of a network's nodes, and the lines into which they lead.
ghost use Rattle.plan_ports.specs.Outlets.{AllLead, AreWays, HaveOwnPorts};

use network::Network;

/// Each line of a network has a port of its own at the node that it leaves, and one at the node to which it leads (`own`). Each output port
/// leads into a line of the network, and no frame waits there at first (`lead`). So each line is the only way from its port to the port to
/// which it leads (`ways`).
pub fn ports_law(network: &Network)
    ensures own { HaveOwnPorts network.now }
    ensures lead { AllLead network.now }
    ensures ways { AreWays network.now }
{
    network.accepted_law();
}
