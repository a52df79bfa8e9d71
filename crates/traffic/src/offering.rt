//! The offers of all streams.
ghost use Rattle.std.specs.Prelude.{◌≡◌, ◌+◌, ◌<◌, OnOk, IfOk};
ghost use Rattle.std.specs.List.{flat_map};
ghost use Rattle.traffic.specs.Offers.{offers_from, offers_of};
ghost use Rattle.traffic.specs.Places.{place_count, streams_before};

use crate::drawing::push_offers;
use crate::streams::{place_count, stream_at};
use network::Network;
use std::alloc::{AllocError, Global};
use vlink::Message;

/// Returns how many offers are due of the stream at a place.
fn due_offers(network: &Network, place: usize) -> u64
    requires { place < place_count network.now }
{
    match stream_at(network, place) {
        Some(stream) => {
            let bursts = stream.due_count(stream.last(network.until()));
            bursts.saturating_mul(u64::from(stream.stream.frames))
        }
        None => 0,
    }
}

/// Returns how many offers are due. It counts also those that come after the end of the run because their drawn delay is too long. The list
/// of offers gets this room at once; with another number it would grow step by step.
fn most_offers(network: &Network) -> usize {
    let mut most: usize = 0;
    for place in 0..place_count(network) {
        most = most.saturating_add(due_offers(network, place) as usize);
    }
    most
}

/// Appends the offers of the stream at a place to those of the ones before it.
fn push_stream(offers: &mut Vec<Message>, network: &Network, place: usize) -> Result<(), AllocError>
    requires place { place < place_count network.now }
    requires before { offers.old.items ≡ flat_map (offers_from network.now.seed network.now.until) (streams_before network.now place) }
    ensures { OnOk result (offers.new.items ≡ flat_map (offers_from network.now.seed network.now.until) (streams_before network.now (place + 1))) }
{
    match stream_at(network, place) {
        Some(stream) => push_offers(offers, network.seed(), network.until(), &stream),
        None => Ok(()),
    }
}

/// Returns all offers of a network, one message each: the own streams of virtual links by ascending number, then the streams of rows in the
/// order of their rows, and of each stream its offers in the order of their numbers.
///
/// The i-th offer of a stream, i from 0, is frame `i % frames` of burst `k = i / frames`. Burst `k` is due at `offset + k * period` ns and
/// comes later by its delay `w_k % (jitter + 1)`; if the stream is sporadic, by the sum of the delays of the bursts as far as `k`. `w_k` is
/// the k-th word of PCG XSH RR 64/32 with the network's seed as its state and the number of the stream as its stream (profile): that of its
/// virtual link, or 65,536 and the place of its row. An offer that comes after the end of the run, or after that of its stream, is left
/// out; the others keep their number.
///
/// Want of memory is the only error.
pub fn offers(alloc: Global, network: &Network) -> Result<Vec<Message>, AllocError>
    ensures { IfOk result (λ offers. offers.items ≡ offers_of network.now) }
{
    let mut offers = Vec::with_capacity(alloc, most_offers(network))?;
    for place in 0..place_count(network) {
        push_stream(&mut offers, network, place)?;
    }
    Ok(offers)
}
