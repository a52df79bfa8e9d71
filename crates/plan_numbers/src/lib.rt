//! The sequence numbers of a network suffice for its whole one-thread run. No product code.
#![tactic(auto)]

ghost use Rattle.std.specs.Prelude.{◌≤◌, ◌^◌, length};
ghost use Rattle.traffic.specs.Offers.{offers_of};
ghost use Rattle.nodes.specs.Words.{simulation_of};
ghost use Rattle.actor_run.specs.Running.{HasNumbersFrom};

use network::Network;
use plan_ports::{links_law, offered_law, ports_law};
use seqsim::{layout_law, network_law};

/// In the one-thread run of a network with at most 2^60 offers, no process ever lacks the numbers for what one event can send. So the run
/// never ends for want of numbers.
///
/// A run has at most 10^15 + 1 moments. At each of them at most one frame comes to a port of a node, and at most one starts there. So a
/// switch sends at most 624 messages for each moment, an end system 48 for each moment and two for each offer, and a line one for each
/// moment. A process has 2^62 numbers.
pub fn numbers_law(network: &Network)
    ensures { length (offers_of network.now) ≤ 2 ^ 60 → HasNumbersFrom (simulation_of network.now) 0 }
{
    network.accepted_law();
    network_law(network);
    layout_law(network);
    ports_law(network);
    links_law(network);
    offered_law(network);
    let _until = network.until();
}
