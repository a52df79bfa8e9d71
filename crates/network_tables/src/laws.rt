//! Where the virtual links of a network are configured, and which list ascends.
ghost use Rattle.std.specs.Prelude.{ℕ, ◌≡◌, ◌↔◌, true, List, Contains};
ghost use Rattle.vlink.specs.declared.frame.Net.{Net};
ghost use Rattle.network.specs.declared.wiring.Way.{Way};
ghost use Rattle.network.specs.Plan.{VlPlan};
ghost use Rattle.network.specs.Wiring.{is_end_system};
ghost use Rattle.network.specs.Trees.{IsRisingOf, rising};
ghost use Rattle.network.specs.Lines.{arrivals_of, departures_of};
ghost use Rattle.network_tables.specs.PortLaws.{IsInput, IsOutput, FacesPredecessor, FacesSuccessor, IsArrival, IsDeparture, GoesThrough, ExactlyOne, Precedes, Faces, port_for};

use network::Network;

/// A virtual link is configured at the ports of a node that its paths give, and at no others. It enters at just the ports that face the
/// node's predecessor on a path, and leaves by just those that face a successor; `arrivals` and `departures` list just these ports. A
/// switch on its way has exactly one input port for it. The port of an end system that faces its neighbour on a path is 0 on network A, and
/// 1 on network B.
pub fn port_law(network: &Network)
    ensures inputs { (vl : VlPlan) (node port : ℕ) → IsInput network.now vl node port ↔ FacesPredecessor network.now vl node port }
    ensures outputs { (vl : VlPlan) (node port : ℕ) → IsOutput network.now vl node port ↔ FacesSuccessor network.now vl node port }
    ensures arrivals { (node : ℕ) (way : Way) → Contains (arrivals_of network.now node) way ↔ IsArrival network.now node way }
    ensures departures { (node : ℕ) (way : Way) → Contains (departures_of network.now node) way ↔ IsDeparture network.now node way }
    ensures one_input { (vl : VlPlan) (node : ℕ) → Contains network.now.vls vl → GoesThrough network.now vl node → ExactlyOne (IsInput network.now vl node) }
    ensures from_network { (vl : VlPlan) (net : Net) (node port predecessor : ℕ) → Contains network.now.vls vl → is_end_system network.now.nodes node ≡ true
        → Precedes net vl predecessor node → Faces network.now node port predecessor → port ≡ port_for net }
    ensures to_network { (vl : VlPlan) (net : Net) (node port successor : ℕ) → Contains network.now.vls vl → is_end_system network.now.nodes node ≡ true
        → Precedes net vl node successor → Faces network.now node port successor → port ≡ port_for net }
{
    network.accepted_law();
}

/// The list `rising` of some numbers is the one strictly increasing list with the same members. It gives the destinations of a virtual
/// link, and the lines that it uses.
pub fn rising_law()
    ensures rising { (numbers : List ℕ) → IsRisingOf numbers (rising numbers) }
    ensures only { (numbers list : List ℕ) → IsRisingOf numbers list → list ≡ rising numbers }
{}
