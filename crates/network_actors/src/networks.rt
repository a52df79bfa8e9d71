//! Networks meet the laws of a simulation.
ghost use Rattle.virtual_time.specs.Law.{Laws};
ghost use Rattle.reverse.specs.Setting.{IsLaidOut};
ghost use Rattle.nodes.specs.Words.{IsPlaced, simulation_of};
ghost use Rattle.network_actors.specs.Networks.{setting_of};

use network::Network;
use nodes::{Node, NodeRecord};
use reverse::{actor_law, actor_rules_law};
use traffic::offers_law;
use vlink::Note;

/// The layout of a network meets what a simulation of actors requires: its nodes and lines know their places and send to processes, and its
/// offers are as they must be.
pub fn layout_law(network: &Network)
    ensures { IsLaidOut (simulation_of network.now).rules (λ s. s.sender.number) (λ s. s.sender.until) IsPlaced (setting_of network.now) }
{
    network.accepted_law();
    actor_rules_law::<Node>();
    offers_law::<Node, NodeRecord, Note>(network);
}

/// Every network meets the laws of virtual time: its layout is what actors need, and they meet their own laws.
pub fn network_law(network: &Network)
    ensures { Laws (simulation_of network.now) }
{
    layout_law(network);
    actor_law::<Node>();
}
