//! What the threads of a run go by.

/// How many workers there are; the most messages that a group handles in a turn; and the most that it runs ahead of the GVT that it saw,
/// in ns.
#[derive(Clone, Copy)]
pub(crate) struct Speed {
    pub workers: usize,
    pub turn: u32,
    pub window_ns: u64,
}
