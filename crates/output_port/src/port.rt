//! An output port: two lists by priority, and a line that is free or busy.
ghost use Rattle.std.specs.Prelude.{◌≡◌, ◌+◌, ◌*◌, ◌≤◌, ◌++◌, [], ◌∷◌, true, false, length, ⊤, IfOk};
ghost use Rattle.std.proofs.Props.{props};
ghost use Rattle.frame_ring.specs.Last.{without_last};
ghost use Rattle.reverse.specs.Plain.{CameFrom};
ghost use Rattle.output_port.specs.Port.{PortState, opening, port, IsWithinBytes, put, put_answer, put_kept, free, free_answer, undone, waiting, with_waiting, waiting_bytes, may_wait};
ghost use Rattle.output_port.specs.declared.event.PortRecord.TheVariants as saved;
ghost use Rattle.output_port.specs.Undoing.{port-undoes, put-saves};

use crate::event::{FreeRecord, PortAnswer, PortEvent, PortRecord, Priority, PutRecord};
use frame_ring::FrameRing;
use reverse::Reversible;
use std::alloc::{AllocError, Global};
use std::marker::Model;
use vlink::{Frame, FrameSize};

/// An output port of a switch or an end system. It stores each frame whole and sends one at a time. When the line becomes free it takes the
/// frames of high priority before those of low, each list in the order of arrival (ARINC 664 Part 7). The waiting frames of both priorities
/// share one limit of bytes (profile).
///
/// Clauses see it as whether it is busy, its two lists and its limit of bytes.
#[derive(Drop)]
pub struct Port {
    busy: bool,
    /// False only if nothing waits. So a port that becomes free with nothing to send, as most do, does not look into its lists.
    waits: bool,
    port_bytes: u32,
    high: FrameRing,
    low: FrameRing,
    ghost none: { waits ≡ false → (high.frames ≡ []) × (low.frames ≡ []) } by { Prim.hlevel props },
}

impl Model for Port {
    ghost use Rattle.output_port.specs.Port.{PortState, IsPort};

    ghost Value = { PortState };

    ghost view = { λ p. record { busy = p.busy; high = p.high.frames; low = p.low.frames; bytes = p.port_bytes } };

    ghost invariant = { λ p. IsPort p.high.frames p.low.frames p.high.room p.low.room p.port_bytes };
}

impl Port {
    /// Makes an idle port in which nothing waits, and in which at most `port_bytes` bytes may wait, counted from destination address to
    /// check sequence of each frame. All memory is taken here: in each list for as many frames of the least size as `port_bytes` bytes
    /// hold. An error means that there is no memory for them; nothing is left behind.
    pub fn new(alloc: Global, port_bytes: u32) -> Result<Self, AllocError>
        ensures { IfOk result (λ p. p ≡ opening port_bytes) }
    {
        let room = port_bytes / u32::from(FrameSize::LEAST);
        let high = FrameRing::new(alloc, room)?;
        let low = FrameRing::new(alloc, room)?;
        Ok(Port {
            busy: false,
            waits: false,
            port_bytes,
            high,
            low,
        })
    }

    /// Whether a frame is in transmission.
    pub fn is_busy(&self) -> bool
        ensures { result ≡ self.now.busy }
    {
        // A start sets it, and a Free with no frame waiting clears it.
        self.busy
    }

    /// Returns the number of bytes that wait, in both lists together. A frame in transmission does not count.
    pub fn waiting_bytes(&self) -> u64
        ensures value { result ≡ waiting_bytes self.now }
        ensures within { waiting_bytes self.now ≤ self.now.bytes }

        // Each frame has at least 64 bytes.
        ensures least { 64 * (length self.now.high + length self.now.low) ≤ waiting_bytes self.now }
    {
        // The two counts lie within the limit, so their sum does.
        let _limit = self.port_bytes;
        self.high.bytes() + self.low.bytes()
    }

    /// Whether the frame may wait beside the others.
    fn may_wait(&self, frame: &Frame) -> bool
        ensures { result ≡ may_wait self.now frame.now }
    {
        let limit = u64::from(self.port_bytes);
        self.waiting_bytes() + u64::from(frame.size.bytes()) <= limit
    }

    /// The frame goes to the back of the list of its priority.
    fn keep(&mut self, frame: Frame, priority: Priority)
        requires { waiting_bytes self.old + frame.size ≤ self.old.bytes }
        ensures { self.new ≡ with_waiting priority (waiting priority self.old ++ frame ∷ []) self.old }
    {
        let _waiting = self.waiting_bytes();
        let _bytes = frame.size.bytes();
        self.waits = true;
        match priority {
            Priority::High => self.high.push_back(frame),
            Priority::Low => self.low.push_back(frame),
        }
    }

    /// The frame goes back to the front of the list of its priority.
    fn put_back(&mut self, priority: Priority, frame: Frame)
        requires { waiting_bytes self.old + frame.size ≤ self.old.bytes }
        ensures { self.new ≡ with_waiting priority (frame ∷ waiting priority self.old) self.old }
    {
        let _waiting = self.waiting_bytes();
        let _bytes = frame.size.bytes();
        self.waits = true;
        match priority {
            Priority::High => self.high.push_front(frame),
            Priority::Low => self.low.push_front(frame),
        }
    }

    /// Removes the last frame of a list, if it has one.
    fn take_last(&mut self, priority: Priority)
        ensures { self.new ≡ with_waiting priority (without_last (waiting priority self.old)) self.old }
    {
        let _last = match priority {
            Priority::High => self.high.pop_back(),
            Priority::Low => self.low.pop_back(),
        };
    }

    /// A frame is put to the port: it starts at once, waits or is dropped, as the record states.
    pub fn put(&mut self, frame: &Frame, priority: Priority) -> PutRecord
        ensures state { self.new ≡ (put self.old frame.now priority).state }
        ensures answer { put_answer frame.now result ≡ (put self.old frame.now priority).answer }
        ensures kept { result ≡ put_kept self.old frame.now priority }
        ensures within { IsWithinBytes self.old }
    {
        let _waiting = self.waiting_bytes();
        if !self.busy {
            self.busy = true;
            return PutRecord::AtOnce;
        }
        if !self.may_wait(frame) {
            return PutRecord::Nothing;
        }
        self.keep(*frame, priority);
        PutRecord::Kept(priority)
    }

    /// The line is free. The record states which frame starts, if one does.
    #[inline(always)]
    pub fn free(&mut self) -> FreeRecord
        ensures state { self.new ≡ (free self.old).state }
        ensures answer { free_answer result ≡ (free self.old).answer }
        ensures kept { saved.Free result ≡ (free self.old).kept }
        ensures within { IsWithinBytes self.old }
    {
        let _waiting = self.waiting_bytes();
        if !self.busy {
            return FreeRecord::Nothing;
        }
        if self.waits {
            return self.start_next();
        }
        self.become_idle()
    }

    /// The line of a busy port is free: the first frame of high priority starts, or if none waits the first of low priority.
    ///
    /// It stays a call of its own, since most ports become free with no frame waiting.
    #[inline(never)]
    fn start_next(&mut self) -> FreeRecord
        requires { self.old.busy ≡ true }
        ensures state { self.new ≡ (free self.old).state }
        ensures answer { free_answer result ≡ (free self.old).answer }
        ensures kept { saved.Free result ≡ (free self.old).kept }
    {
        if let Some(frame) = self.high.pop_front() {
            return FreeRecord::Popped(Priority::High, frame);
        }
        if let Some(frame) = self.low.pop_front() {
            return FreeRecord::Popped(Priority::Low, frame);
        }
        self.waits = false;
        self.become_idle()
    }

    /// No frame starts.
    #[inline(always)]
    fn become_idle(&mut self) -> FreeRecord
        ensures state { self.new ≡ record self.old { busy = false } }
        ensures idle { result ≡ FreeRecord.Idle }
    {
        self.busy = false;
        FreeRecord::Idle
    }

    /// Undoes an event, by its record.
    pub fn take_back(&mut self, kept: PortRecord)
        requires { (e : PortEvent) × CameFrom port (λ p e. IsWithinBytes p) self.old e kept }
        ensures { self.new ≡ undone self.old kept }
    {
        match kept {
            PortRecord::Put(kept) => self.take_back_put(kept),
            PortRecord::Free(FreeRecord::Popped(priority, frame)) => self.put_back(priority, frame),
            PortRecord::Free(FreeRecord::Idle) => self.busy = true,
            PortRecord::Free(FreeRecord::Nothing) => {}
        }
    }

    /// Undoes that a frame was put, by its record. Requires nothing.
    pub fn take_back_put(&mut self, kept: PutRecord)
        ensures { self.new ≡ undone self.old (saved.Put kept) }
    {
        match kept {
            PutRecord::AtOnce => self.busy = false,
            PutRecord::Kept(priority) => self.take_last(priority),
            PutRecord::Nothing => {}
        }
    }
}

/// The answer to a frame put.
fn put_answer(frame: &Frame, kept: PutRecord) -> PortAnswer
    ensures { result ≡ put_answer frame.now kept }
{
    match kept {
        PutRecord::AtOnce => PortAnswer::Started(*frame),
        PutRecord::Kept(_) => PortAnswer::Kept,
        PutRecord::Nothing => PortAnswer::Dropped,
    }
}

/// The answer to a Free.
fn free_answer(kept: &FreeRecord) -> PortAnswer
    ensures { result ≡ free_answer kept.now }
{
    match *kept {
        FreeRecord::Popped(_, frame) => PortAnswer::Started(frame),
        FreeRecord::Idle => PortAnswer::Idle,
        FreeRecord::Nothing => PortAnswer::Nothing,
    }
}

impl Reversible for Port {
    type Event = PortEvent;

    type Out = PortAnswer;

    type Record = PortRecord;

    ghost plain = { port };

    ghost is_value = { λ p e. IsWithinBytes p };

    ghost can_apply = { λ p. ⊤ };

    ghost undoes = { port-undoes };

    fn apply(&mut self, event: &PortEvent) -> (PortAnswer, PortRecord) {
        match *event {
            PortEvent::Put { frame, priority } => {
                let kept = self.put(&frame, priority);
                (put_answer(&frame, kept), PortRecord::Put(kept))
            }
            PortEvent::Free => {
                let kept = self.free();
                (free_answer(&kept), PortRecord::Free(kept))
            }
        }
    }

    fn undo(&mut self, _event: &PortEvent, kept: PortRecord) {
        self.take_back(kept);
    }
}
