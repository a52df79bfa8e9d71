//! How long frames take on a wire.
ghost use Rattle.std.specs.Prelude.{◌≡◌, ◌≤◌};
ghost use Rattle.vlink.specs.Wire.{last_bit_after, busy_for};

use crate::frame::FrameSize;

/// Returns how long a port is busy with a frame, in ns, at `byte_ns` ns a byte: the frame's size and 20 bytes more, a preamble of 7, a
/// start delimiter of 1 and an interframe gap of 12 (ARINC 664 Part 7).
pub fn busy_ns(size: FrameSize, byte_ns: u32) -> u64
    ensures { result ≡ busy_for size byte_ns }
{
    (u64::from(size.bytes()) + 20) * u64::from(byte_ns)
}

/// Returns how long after the start of a frame its last bit leaves, in ns, at `byte_ns` ns a byte. The port is busy for at least this time.
pub fn last_bit_ns(size: FrameSize, byte_ns: u32) -> u64
    ensures value { result ≡ last_bit_after size byte_ns }
    ensures within { result ≤ busy_for size byte_ns }
{
    (u64::from(size.bytes()) + 8) * u64::from(byte_ns)
}
