//! The offers of one stream.
ghost use Rattle.std.specs.Prelude.{◌≡◌, ℕ, ◌+◌, ◌*◌, ◌<◌, ◌≤◌, ◌++◌, map, OnOk};
ghost use Rattle.std.specs.List.{range_with_len};
ghost use Rattle.vlink.specs.declared.time.TheConstants.{LATEST_NS};
ghost use Rattle.traffic.specs.Limits.{IsOfferedInLimits};
ghost use Rattle.traffic.specs.Offers.{due_of, late_by, offer_by, offers_from};

use crate::stream::OfferedStream;
use network::Timing;
use rand_core::utils::NextWord;
use rand_pcg::Lcg64Xsh32;
use std::alloc::AllocError;
use vlink::{Body, LATEST_NS, Message, Time};

/// Appends the frames of burst `k`, which comes at this moment.
fn push_burst(
    offers: &mut Vec<Message>,
    stream: &OfferedStream,
    k: u64,
    time: Time,
) -> Result<(), AllocError>
    requires limits { IsOfferedInLimits stream.now }
    requires few { due_of stream.now.stream k ≤ LATEST_NS }
    ensures { OnOk result ((late : ℕ) → time ≡ due_of stream.now.stream k + late →
        offers.new.items ≡ offers.old.items ++ map (λ n. offer_by stream.now n late) (range_with_len (k * stream.now.stream.frames) stream.now.stream.frames)) }
{
    for i in 0..stream.stream.frames {
        offers.push(Message {
            time,
            receiver: stream.source,
            sender: stream.sender(),
            number: k * u64::from(stream.stream.frames) + u64::from(i),
            body: Body::Offer {
                vl: stream.vl,
                size: stream.size(i),
                sub: stream.sub(k),
            },
        })?;
    }
    Ok(())
}

/// Returns how much later than due a burst comes, after these delays and by its own.
pub fn late(timing: Timing, before: u64, drawn: u64) -> u64
    requires before { before ≤ LATEST_NS + 1 }
    requires drawn { drawn ≤ LATEST_NS }
    ensures { result ≡ late_by timing before drawn }
{
    match timing {
        Timing::Periodic => drawn,
        Timing::Sporadic => before + drawn,
    }
}

/// Appends the offers of a stream.
pub fn push_offers(
    offers: &mut Vec<Message>,
    seed: u64,
    until: Time,
    stream: &OfferedStream,
) -> Result<(), AllocError>
    requires limits { IsOfferedInLimits stream.now }
    requires until { until ≤ LATEST_NS }
    ensures { OnOk result (offers.new.items ≡ offers.old.items ++ offers_from seed until stream.now) }
{
    let last = stream.last(until);
    let mut words = Lcg64Xsh32::new(seed, u64::from(stream.number));
    // The delays so far, or more than any run has.
    let mut before: u64 = 0;
    for k in 0..stream.due_count(last) {
        let drawn = stream.drawn(words.next_word());
        let late = late(stream.stream.timing, before, drawn);
        let due = stream.stream.offset_ns + k * stream.stream.period_ns;
        if let Some(time) = stream.moment(until, due, late) {
            push_burst(offers, stream, k, time)?;
        }
        before = (before + drawn).min(LATEST_NS + 1);
    }
    Ok(())
}
