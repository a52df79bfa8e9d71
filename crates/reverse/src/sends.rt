//! Room for what one event sends and notes.
ghost use Rattle.std.specs.Prelude.{◌≡◌, []};

use arrayvec::ArrayVec;
use vlink::{Message, Note};

/// The most messages that one event sends: a switch sends one for each of its ports.
pub const MOST_SENT: usize = 24;

/// The most notes that one event gives.
pub const MOST_NOTED: usize = 2;

/// What one event makes an actor send and note.
#[derive(Drop)]
pub struct Sends {
    /// The messages in the order of their numbers.
    pub messages: ArrayVec<Message, MOST_SENT>,
    /// The notes in their order.
    pub notes: ArrayVec<Note, MOST_NOTED>,
}

impl Sends {
    /// Neither messages nor notes.
    pub fn new() -> Self
        ensures messages { result.messages.items ≡ [] }
        ensures notes { result.notes.items ≡ [] }
    {
        Sends {
            messages: ArrayVec::new(),
            notes: ArrayVec::new(),
        }
    }
}
