//! The streams of a network by place: those of virtual links, and behind them those of rows.
ghost use Rattle.std.specs.Prelude.{◌≡◌, ◌+◌, ◌<◌, ◌≤◌, [], ◌∷◌, ◌++◌, length, option_to_list, IfSome};
ghost use Rattle.traffic.specs.Limits.{IsOfferedInLimits};
ghost use Rattle.traffic.specs.Places.{place_count, streams_before};

use crate::stream::OfferedStream;
use network::Network;

/// The number of the first row of a stream. Lesser ones are numbers of virtual links.
const FIRST_ROW: u32 = 65_536;

/// Returns the number of places.
pub fn place_count(network: &Network) -> usize
    ensures value { result ≡ place_count network.now }
    ensures few { result ≤ 131072 }
{
    network.accepted_law();
    let rows = network.streams().len();
    network.vl_count() + rows
}

/// Returns the own stream of the virtual link at a place.
fn own_stream(network: &Network, vl: usize) -> OfferedStream
    requires { vl < length network.now.vls }
    ensures more { streams_before network.now (vl + 1) ≡ streams_before network.now vl ++ result ∷ [] }
    ensures limits { IsOfferedInLimits result }
{
    let link = network.virtual_link(vl);
    OfferedStream {
        number: u32::from(link.id.0),
        vl: link.id,
        sub: link.sub,
        source: network.source(vl),
        stream: link.own,
    }
}

/// Returns the stream of a row, if there is a virtual link with its number. There is one in every network.
fn row_stream(network: &Network, row: usize) -> Option<OfferedStream>
    requires { row < length network.now.streams }
    ensures more { streams_before network.now ((length network.now.vls + row) + 1) ≡ streams_before network.now (length network.now.vls + row) ++ option_to_list result }
    ensures limits { IfSome result IsOfferedInLimits }
{
    let own = network.streams()[row];
    match network.place_of(own.vl) {
        Some(vl) => {
            let link = network.virtual_link(vl);
            Some(OfferedStream {
                number: FIRST_ROW + row as u32,
                vl: link.id,
                sub: link.sub,
                source: network.source(vl),
                stream: own.stream,
            })
        }
        None => None,
    }
}

/// Returns the stream at a place.
pub fn stream_at(network: &Network, place: usize) -> Option<OfferedStream>
    requires { place < place_count network.now }
    ensures more { streams_before network.now (place + 1) ≡ streams_before network.now place ++ option_to_list result }
    ensures limits { IfSome result IsOfferedInLimits }
{
    let vls = network.vl_count();
    if place < vls {
        Some(own_stream(network, place))
    } else {
        row_stream(network, place - vls)
    }
}
