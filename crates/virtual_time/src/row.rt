//! Rows: what events note.
/// A note, with the message and the process that it comes from.
#[derive(Clone, Copy, PartialEq, Eq)]
pub struct Row<M, N> {
    pub message: M,
    pub place: u16,
    pub note: N,
}
