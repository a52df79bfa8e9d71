//! What a process does alone.
/// A step that a process does alone.
#[derive(Clone, Copy, PartialEq, Eq)]
pub enum Move {
    /// The front letter of its tray arrived.
    Arrived,
    /// Its first unhandled message was handled.
    Ran,
    /// Its oldest done event was committed.
    Committed,
}
