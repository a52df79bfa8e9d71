//! The names of processes and of causes of loss.
ghost use Rattle.std.specs.Prelude.{◌≡◌};
ghost use Rattle.trace_segments.specs.Text.{place_name, cause_name};

use network::Network;
use vlink::Cause;

/// Returns the name of a process: that of the node, or of the line behind the nodes. If the process does not exist it is the empty text.
pub fn place_name(network: &Network, place: usize) -> &str
    ensures { result.now ≡ place_name network.now place }
{
    let nodes = network.node_count();
    if place < nodes {
        network.node_name(place)
    } else if place - nodes < network.line_count() {
        network.line_name(place - nodes)
    } else {
        ""
    }
}

/// Returns the name of a cause as texts write it.
pub fn cause_name<'a>(cause: Cause) -> &'a str
    ensures { result.now ≡ cause_name cause }
{
    match cause {
        Cause::QueueFull => "queue_full",
        Cause::PortFull => "port_full",
        Cause::Outage => "outage",
        Cause::Unknown => "unknown",
        Cause::TooLong => "too_long",
        Cause::Policed => "policed",
        Cause::Integrity => "integrity",
        Cause::Duplicate => "duplicate",
    }
}
