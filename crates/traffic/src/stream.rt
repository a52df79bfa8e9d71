//! A stream of a network.
ghost use Rattle.std.specs.Prelude.{◌≡◌, ◌+◌, ◌*◌, ◌^◌, ◌<◌, ◌≤◌, ◌↔◌, ℕ, IsSome, IfSome};
ghost use Rattle.vlink.specs.declared.time.TheConstants.{LATEST_NS};
ghost use Rattle.traffic.specs.Limits.{IsOfferedInLimits};
ghost use Rattle.traffic.specs.Offers.{due_of, drawn_by, last_of, due_count, size_of, sub_of, sender_of};

use network::{GREATEST_PROCESSES, Stream};
use vlink::{FrameSize, Time, VlId, process_number};

/// What an application offers to a virtual link, and where: bursts of frames.
#[derive(Clone, Copy)]
pub struct OfferedStream {
    /// Which words delay its bursts, and who sends its offers: the number of the virtual link whose row has it, or 65,536 and the place of
    /// its row in `stream`.
    pub number: u32,
    /// The virtual link that it offers frames to.
    pub vl: VlId,
    /// How many sub-virtual links that has.
    pub sub: u8,
    /// The node at which the frames begin.
    pub source: u16,
    pub stream: Stream,
}

impl OfferedStream {
    /// Returns the last moment at which it can offer frames.
    pub fn last(&self, until: Time) -> Time
        ensures { result ≡ last_of until self.now.stream }
    {
        match self.stream.end_ns {
            Some(end) => match Time::until(end, until) {
                Some(last) => last,
                None => until,
            },
            None => until,
        }
    }

    /// Returns the moment at which a burst comes that is due at `due` and comes `late` ns later, or none if it comes after the last moment of
    /// the stream.
    pub fn moment(&self, until: Time, due: u64, late: u64) -> Option<Time>
        requires { due + late < 2 ^ 64 }
        ensures within { IsSome result ↔ (due + late ≤ last_of until self.now.stream) }
        ensures value { IfSome result (λ time. time ≡ due + late) }
    {
        Time::until(due + late, self.last(until))
    }

    /// Returns how many bursts are due up to `last`.
    pub fn due_count(&self, last: Time) -> u64
        requires { IsOfferedInLimits self.now }
        ensures value { result ≡ due_count last self.now.stream }
        ensures due { (k : ℕ) → (k < result) ↔ (due_of self.now.stream k ≤ last) }
    {
        if last.ns() < self.stream.offset_ns {
            0
        } else {
            (last.ns() - self.stream.offset_ns) / self.stream.period_ns + 1
        }
    }

    /// Returns the delay that a word draws, in ns.
    pub fn drawn(&self, word: u32) -> u64
        requires { IsOfferedInLimits self.now }
        ensures { result ≡ drawn_by self.now.stream word }
    {
        u64::from(word) % (u64::from(self.stream.jitter_ns) + 1)
    }

    /// Returns the sender of its offers.
    pub fn sender(&self) -> u32
        requires { IsOfferedInLimits self.now }
        ensures { result ≡ sender_of self.now.number }
    {
        u32::from(process_number(GREATEST_PROCESSES)) + self.number
    }

    /// Returns the size of frame `i` of each burst.
    pub fn size(&self, i: u8) -> FrameSize
        requires limits { IsOfferedInLimits self.now }
        requires place { i < self.now.stream.frames }
        ensures { result ≡ size_of self.now.stream i }
    {
        if i + 1 < self.stream.frames {
            self.stream.size
        } else {
            self.stream.last_size.unwrap_or(self.stream.size)
        }
    }

    /// Returns the sub-virtual link of burst `k`.
    pub fn sub(&self, k: u64) -> u8
        requires { IsOfferedInLimits self.now }
        ensures { result ≡ sub_of self.now k }
    {
        match self.stream.sub_vl {
            Some(sub) => sub,
            None => (k % u64::from(self.sub)) as u8,
        }
    }
}
