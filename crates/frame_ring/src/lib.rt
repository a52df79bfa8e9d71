//! A list of frames with a fixed room and the sum of their sizes, in one buffer that is made once.
#![tactic(auto)]

mod ring;

pub use ring::FrameRing;
