//! Frames, their sizes and the numbers of virtual links.
ghost use Rattle.std.specs.Prelude.{◌≡◌, ℕ, ◌≤◌, ◌↔◌, IsSome, IfSome};

use crate::time::Time;
use std::marker::Model;

/// The number of a virtual link, 0 to 65,535.
#[derive(Clone, Copy, Default, PartialEq, Eq, PartialOrd, Ord)]
pub struct VlId(pub u16);

/// One of the two redundant networks.
#[derive(Clone, Copy, Default, PartialEq, Eq, PartialOrd, Ord)]
pub enum Net {
    #[default]
    A,
    B,
}

/// The size of a frame in bytes, from destination address to check sequence: 64 to 1518.
///
/// Clauses see it as its number of bytes.
#[derive(Clone, Copy, PartialEq, Eq, PartialOrd, Ord)]
pub struct FrameSize {
    bytes: u16,
}

impl Model for FrameSize {
    ghost Value = { ℕ };

    ghost view = { λ s. s.bytes };

    ghost invariant = { λ s. (64 ≤ s.bytes) × (s.bytes ≤ 1518) };

    ghost inverse = { λ n. record { bytes = n } };
}

impl FrameSize {
    /// The least size of a frame.
    pub const LEAST: u16 = 64;

    /// The greatest size of a frame.
    pub const GREATEST: u16 = 1518;

    /// Returns a size of `bytes` bytes, or none if that is outside the limits.
    pub fn new(bytes: u16) -> Option<Self>
        ensures within { IsSome result ↔ ((64 ≤ bytes) × (bytes ≤ 1518)) }
        ensures value { IfSome result (λ s. s ≡ bytes) }
    {
        if FrameSize::LEAST <= bytes && bytes <= FrameSize::GREATEST {
            Some(FrameSize { bytes })
        } else {
            None
        }
    }

    /// Returns the size in bytes.
    pub fn bytes(self) -> u16
        ensures value { result ≡ self }
        ensures least { 64 ≤ self }
        ensures greatest { self ≤ 1518 }
    {
        self.bytes
    }
}

impl Default for FrameSize {
    ghost is_default = { λ s. s ≡ 64 };

    fn default() -> Self {
        FrameSize { bytes: 64 }
    }
}

/// A frame of a virtual link, as it is on its way through one network.
///
/// The fields lie in an order that leaves no gaps between them: a frame takes 24 bytes. `FrameKey` has the order in which they are
/// compared.
#[derive(Clone, Copy, Default)]
pub struct Frame {
    /// The virtual link that it belongs to.
    pub vl: VlId,
    /// Its sequence number.
    pub number: u8,
    /// The network that it goes out on.
    pub net: Net,
    /// Its size in bytes.
    pub size: FrameSize,
    /// When it was offered to the regulator.
    pub offered: Time,
    /// When the regulator released it.
    pub released: Time,
}
