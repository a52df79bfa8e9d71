//! A ring of frames that wait. The buffer is std's `VecDeque`. The ring stores its room itself, since the capacity of a `VecDeque` can be
//! greater than requested.
ghost use Rattle.std.specs.Prelude.{◌≡◌, ◌*◌, ◌<◌, ◌≤◌, ◌↔◌, [], ◌∷◌, ◌++◌, length, IsTrue, IsNone, IfOk, IfSome, IfNone};
ghost use Rattle.std.specs.VecDeque.{deque_capacity};
ghost use Rattle.frame_ring.specs.Queue.{bytes_of};

use std::alloc::{AllocError, Global};
use std::collections::VecDeque;
use std::marker::Model;
use std::mem;
use vlink::Frame;

/// Waiting frames in one buffer with a fixed room, and the sum of their sizes.
///
/// Clauses see it as the list of its frames, the front first, and its room, which is the number of frames that it may hold. Only `new`
/// takes memory.
pub struct FrameRing {
    frames: VecDeque<Frame>,
    room: u32,
    bytes: u64,
}

impl Model for FrameRing {
    ghost use Rattle.std.specs.VecDeque.{deque_capacity};
    ghost use Rattle.frame_ring.specs.Queue.{Queue, IsRing};

    ghost Value = { Queue };

    ghost view = { λ r. record { frames = r.frames.items; room = r.room } };

    ghost invariant = { λ r. IsRing r.frames.items r.room (deque_capacity r.frames) r.bytes };
}

impl Drop for FrameRing {
    fn drop(self) {
        let Self {
            frames: _,
            room: _,
            bytes: _,
        } = self;
    }
}

impl FrameRing {
    /// Makes an empty ring for `room` frames, with its whole buffer. An error means that there is no memory for it; nothing is left behind.
    pub fn new(alloc: Global, room: u32) -> Result<Self, AllocError>
        ensures empty { IfOk result (λ ring. ring.frames ≡ []) }
        ensures room { IfOk result (λ ring. ring.room ≡ room) }
    {
        Ok(FrameRing {
            frames: VecDeque::with_capacity(alloc, room as usize)?,
            room,
            bytes: 0,
        })
    }

    /// Returns the number of frames.
    pub fn len(&self) -> u32
        ensures value { result ≡ length self.now.frames }
        ensures within { length self.now.frames ≤ self.now.room }
    {
        self.frames.len() as u32
    }

    /// Returns the sum of the sizes of the frames in bytes, each from destination address to check sequence.
    #[tactic(auto, using(crate::proofs::Bytes::bytes_within_limits))]
    pub fn bytes(&self) -> u64
        ensures value { result ≡ bytes_of self.now.frames }

        // Each frame has at least 64 bytes and at most 1518.
        ensures least { 64 * length self.now.frames ≤ bytes_of self.now.frames }
        ensures greatest { bytes_of self.now.frames ≤ 1518 * length self.now.frames }
    {
        // Each push and pop keeps it, so that no frame is read here.
        self.bytes
    }

    /// Whether the ring has no frame.
    pub fn is_empty(&self) -> bool
        ensures { IsTrue result ↔ (self.now.frames ≡ []) }
    {
        self.frames.is_empty()
    }

    /// Whether the ring holds as many frames as it may, so that no further frame fits.
    pub fn is_full(&self) -> bool
        ensures full { IsTrue result ↔ (length self.now.frames ≡ self.now.room) }
        ensures within { length self.now.frames ≤ self.now.room }
    {
        self.len() == self.room
    }

    /// Puts a frame behind the others, in a ring that is not full. Takes no memory.
    #[tactic(auto, using(crate::proofs::Bytes::bytes_within_limits))]
    pub fn push_back(&mut self, frame: Frame)
        requires { length self.old.frames < self.old.room }
        ensures frames { self.new.frames ≡ self.old.frames ++ frame ∷ [] }
        ensures room { self.new.room ≡ self.old.room }
    {
        self.bytes += u64::from(frame.size.bytes());
        self.frames.push_back_reserved(frame);
    }

    /// Puts a frame before the others, in a ring that is not full. Takes no memory.
    #[tactic(auto, using(crate::proofs::Bytes::bytes_within_limits))]
    pub fn push_front(&mut self, frame: Frame)
        requires { length self.old.frames < self.old.room }
        ensures frames { self.new.frames ≡ frame ∷ self.old.frames }
        ensures room { self.new.room ≡ self.old.room }
    {
        self.bytes += u64::from(frame.size.bytes());
        self.frames.push_front_reserved(frame);
    }

    /// Removes and returns the last frame, or returns none if the ring is empty.
    pub fn pop_back(&mut self) -> Option<Frame>
        ensures empty { IsNone result ↔ (self.old.frames ≡ []) }
        ensures last { IfSome result (λ frame. self.old.frames ≡ self.new.frames ++ frame ∷ []) }
        ensures none { IfNone result (self.new.frames ≡ self.old.frames) }
        ensures room { self.new.room ≡ self.old.room }
    {
        let last = self.frames.pop_back()?;
        self.bytes -= u64::from(last.size.bytes());
        Some(last)
    }

    /// Removes and returns the first frame, or returns none if the ring is empty.
    pub fn pop_front(&mut self) -> Option<Frame>
        ensures empty { IsNone result ↔ (self.old.frames ≡ []) }
        ensures first { IfSome result (λ frame. self.old.frames ≡ frame ∷ self.new.frames) }
        ensures none { IfNone result (self.new.frames ≡ self.old.frames) }
        ensures room { self.new.room ≡ self.old.room }
    {
        let first = self.frames.pop_front()?;
        self.bytes -= u64::from(first.size.bytes());
        begin_again(&mut self.frames);
        Some(first)
    }
}

/// Moves the start of an empty buffer back to its first place. Without this each frame goes one place further, and a long run touches the
/// whole buffer even if few frames wait. The call takes no memory.
#[inline(always)]
fn begin_again(frames: &mut VecDeque<Frame>)
    ensures same { frames.new.items ≡ frames.old.items }
    ensures capacity { deque_capacity frames.new ≡ deque_capacity frames.old }
{
    if frames.is_empty() {
        let none = VecDeque::new(*frames.allocator());
        let emptied = mem::replace(frames, none);
        *frames = VecDeque::from_vec(emptied.into_vec());
    }
}
