//! Whether a network has the virtual link and the process of a row.
ghost use Rattle.std.specs.Prelude.{◌≡◌};
ghost use Rattle.trace_segments.specs.Known.{is_in_network};

use network::Network;
use vlink::VlId;

/// Whether the network has this virtual link and this process.
pub fn is_in_network(network: &Network, vl: VlId, place: u16) -> bool
    ensures { result ≡ is_in_network network.now vl.0 place }
{
    network.place_of(vl).is_some() && place < network.process_count()
}
