//! The rows of a run are lawful, which a trace relies on.
ghost use Rattle.vlink.specs.Order.{message_order};
ghost use Rattle.run_rows.specs.Traces.{HasLawfulRows};

use network::Network;
use network_actors::network_law;
use vlink::message_order_law;

/// The rows of the one-thread run of a network are in message order, each of the process that received its message, none of another process
/// than the network's, and none later than the end.
pub fn rows_law(network: &Network)
    ensures { HasLawfulRows network.now }
{
    network_law(network);
    message_order_law();
}
