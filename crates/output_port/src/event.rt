//! The events of an output port, its answers, and what it keeps for an undo.
use vlink::Frame;

/// The priority of a frame at an output port.
#[derive(Clone, Copy)]
pub enum Priority {
    High,
    Low,
}

/// An event of a port.
#[derive(Clone, Copy)]
pub enum PortEvent {
    /// A whole frame in the switch or end system is put to the port.
    Put { frame: Frame, priority: Priority },
    /// The frame in transmission and the gap behind it have left.
    Free,
}

/// The answer of a port.
#[derive(Clone, Copy)]
pub enum PortAnswer {
    /// This frame starts: the port is busy with it until the next Free.
    Started(Frame),
    /// The frame put waits.
    Kept,
    /// The frame put is dropped, since with it more bytes would wait than may.
    Dropped,
    /// No frame waits: the port becomes idle.
    Idle,
    /// An idle port has nothing to free.
    Nothing,
}

/// What an undo of a frame put needs: what became of the frame.
#[derive(Clone, Copy)]
pub enum PutRecord {
    /// The frame put started at once: the port became busy.
    AtOnce,
    /// The frame put went to the back of the list of this priority.
    Kept(Priority),
    /// The frame put is dropped: nothing changed.
    Nothing,
}

/// What an undo of a Free needs: what the Free changed.
#[derive(Clone, Copy)]
pub enum FreeRecord {
    /// This frame left the front of the list of this priority.
    Popped(Priority, Frame),
    /// The port became idle.
    Idle,
    /// Nothing changed.
    Nothing,
}

/// What an undo of an event needs.
#[derive(Clone, Copy)]
pub enum PortRecord {
    Put(PutRecord),
    Free(FreeRecord),
}
