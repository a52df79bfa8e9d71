//! Counts offers without a list of them.
ghost use Rattle.std.specs.Prelude.{◌≡◌, ℕ, ◌+◌, ◌*◌, ◌≤◌, ◌<◌, cond, length, nat_le};
ghost use Rattle.std.specs.List.{flat_map};
ghost use Rattle.vlink.specs.declared.time.TheConstants.{LATEST_NS};
ghost use Rattle.traffic.specs.Counting.{IsSumOf, come_count};
ghost use Rattle.traffic.specs.Limits.{IsOfferedInLimits};
ghost use Rattle.traffic.specs.Offers.{due_count, drawn_before, moment_of, offers_from, offers_of};
ghost use Rattle.traffic.specs.Places.{place_count, streams_before};

use crate::drawing::late;
use crate::stream::OfferedStream;
use crate::streams::{place_count, stream_at};
use network::{Network, Timing};
use rand_core::utils::NextWord;
use rand_pcg::Lcg64Xsh32;
use vlink::{LATEST_NS, Time};

/// Returns how many bursts of a stream come up to `last`, however late they are. They are its first ones, and need no random word. Delays
/// of a sporadic stream add up, so none of its bursts is counted here.
fn sure_count(last: Time, stream: &OfferedStream) -> u64
    requires { IsOfferedInLimits stream.now }
    ensures few { result ≤ due_count last stream.now.stream }
    ensures sure { (seed k : ℕ) → k < result → moment_of seed stream.now k ≤ last }
    ensures sum { (seed : ℕ) → IsSumOf stream.now.stream.timing 0 (drawn_before seed stream.now result) }
{
    let latest = stream.stream.offset_ns + u64::from(stream.stream.jitter_ns);
    match stream.stream.timing {
        Timing::Sporadic => 0,
        Timing::Periodic => {
            if last.ns() < latest {
                0
            } else {
                (last.ns() - latest) / stream.stream.period_ns + 1
            }
        }
    }
}

/// Returns 1 if a burst that comes at `ns` comes up to `last`, and 0 otherwise.
fn counted(last: Time, ns: u64) -> u64
    ensures { result ≡ cond (nat_le ns last) 1 0 }
{
    if ns <= last.ns() { 1 } else { 0 }
}

/// Returns the number of bursts of a stream that come up to `last`.
fn burst_count(seed: u64, last: Time, stream: &OfferedStream) -> u64
    requires limits { IsOfferedInLimits stream.now }
    requires last { last ≤ LATEST_NS }
    ensures value { result ≡ come_count seed last stream.now (due_count last stream.now.stream) }
    ensures few { result ≤ due_count last stream.now.stream }
{
    let sure = sure_count(last, stream);
    let mut words = Lcg64Xsh32::new(seed, u64::from(stream.number));
    words.advance(sure);
    let mut count = sure;
    // The delays so far, or more than any run has.
    let mut before: u64 = 0;
    for k in sure..stream.due_count(last) {
        let drawn = stream.drawn(words.next_word());
        let late = late(stream.stream.timing, before, drawn);
        let due = stream.stream.offset_ns + k * stream.stream.period_ns;
        count += counted(last, due + late);
        before = (before + drawn).min(LATEST_NS + 1);
    }
    count
}

/// Returns the number of offers of a stream.
fn stream_count(seed: u64, until: Time, stream: &OfferedStream) -> u64
    requires limits { IsOfferedInLimits stream.now }
    requires until { until ≤ LATEST_NS }
    ensures value { result ≡ length (offers_from seed until stream.now) }
    ensures few { 1000 * result ≤ 64 * (LATEST_NS + 1000) }
{
    burst_count(seed, stream.last(until), stream) * u64::from(stream.stream.frames)
}

/// Returns the number of offers of the stream at a place.
fn count_at(network: &Network, place: usize) -> u64
    requires { place < place_count network.now }
    ensures more { length (flat_map (offers_from network.now.seed network.now.until) (streams_before network.now (place + 1)))
        ≡ length (flat_map (offers_from network.now.seed network.now.until) (streams_before network.now place)) + result }
    ensures few { 1000 * result ≤ 64 * (LATEST_NS + 1000) }
{
    match stream_at(network, place) {
        Some(stream) => stream_count(network.seed(), network.until(), &stream),
        None => 0,
    }
}

/// Returns the number of offers of a network: as many as `offers` makes.
pub fn offer_count(network: &Network) -> u64
    ensures { result ≡ length (offers_of network.now) }
{
    let mut count: u64 = 0;
    for place in 0..place_count(network) {
        count += count_at(network, place);
    }
    count
}
