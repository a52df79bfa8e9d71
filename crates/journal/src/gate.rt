//! A callback for each message that is handled.

/// Called before and after a process handles a message, by the code that holds the process or its group.
pub trait Gate {
    /// Whether the calls are wanted. If not, a group counts nothing for them.
    fn hears(&self) -> bool {
        true
    }

    /// Process `process` will handle a message: its `run`-th from 0, counting those that it handles again. The count stops at its greatest
    /// value.
    fn before(&self, process: u16, run: u64);

    /// Process `process` has handled the message.
    fn after(&self, process: u16, run: u64);
}
