//! What is added to a journal of groups at one go.
use group_boxes::Boxes;
use group_hand::Words;
use std::snapshot::Snapshot;

/// What is added to a journal of groups at one go. It represents steps of the laws of virtual time.
#[derive(Drop)]
pub enum Addition {
    /// All letters for the group with this number were taken, while these letters were in transit.
    Collected(u16, Snapshot<Boxes>),
    /// A group did what these words state, while these letters were in transit.
    Posted(Snapshot<Words>, Snapshot<Boxes>),
    /// GVT was set.
    Published,
}
