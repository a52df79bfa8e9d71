//! The rows of a description, section by section.
use crate::paths::Paths;
use crate::sequence::Sequence;
use row_types::{Name, NodeRow, Rate, StreamRow, VirtualLink};
use vlink::Time;

/// A row of the section `link`.
pub struct LinkRow {
    pub a: Name,
    pub b: Name,
    pub mbit: Rate,
    pub propagation_ns: u32,
    /// Whether the row has a key that a row of this section may not have.
    pub has_unknown_key: bool,
}

impl Drop for LinkRow {
    fn drop(self) {
        let Self {
            a: _,
            b: _,
            mbit: _,
            propagation_ns: _,
            has_unknown_key: _,
        } = self;
    }
}

/// A row of the section `outage`: from `from_ns` on, and until before `to_ns`, the line from one node to the other loses frames.
pub struct OutageRow {
    pub from: Name,
    pub to: Name,
    pub from_ns: u64,
    pub to_ns: u64,
    /// Whether the row has a key that a row of this section may not have.
    pub has_unknown_key: bool,
}

impl Drop for OutageRow {
    fn drop(self) {
        let Self {
            from: _,
            to: _,
            from_ns: _,
            to_ns: _,
            has_unknown_key: _,
        } = self;
    }
}

/// A row of the section `vl`.
pub struct VlRow {
    /// The parameters of its frames.
    pub link: VirtualLink,
    /// The paths on network A.
    pub a: Paths,
    /// The paths on network B.
    pub b: Paths,
    /// Whether the row has a key that a row of this section may not have.
    pub has_unknown_key: bool,
}

impl Drop for VlRow {
    fn drop(self) {
        let Self {
            link: _,
            a: _,
            b: _,
            has_unknown_key: _,
        } = self;
    }
}

/// The contents of a description, row by row.
#[derive(Drop)]
pub struct Rows {
    /// The end of a run.
    pub until: Time,
    pub seed: u64,
    pub nodes: Sequence<NodeRow>,
    pub links: Sequence<LinkRow>,
    pub outages: Sequence<OutageRow>,
    pub vls: Sequence<VlRow>,
    pub streams: Sequence<StreamRow>,
    /// Whether the top table has a key that is neither a key of its own nor a section.
    pub has_unknown_key: bool,
}
