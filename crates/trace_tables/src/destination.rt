//! A virtual link and one of its destinations.
ghost use Rattle.std.specs.Prelude.{◌≡◌};
ghost use Rattle.trace_tables.specs.declared.destination.Destination.{Destination};
ghost use Rattle.trace_tables.specs.Destinations.{destination_cmp};

use vlink::VlId;

/// A destination of a virtual link.
///
/// Destinations are ordered by their fields, in order.
#[derive(Clone, Copy, PartialEq, Eq, PartialOrd, Ord)]
pub struct Destination {
    pub vl: VlId,
    /// The process: an end system.
    pub place: usize,
}

/// The derived order of destinations is the order written out.
pub(crate) fn destination_order_law()
    ensures { (a b : Destination) → ⟦<Destination as Ord>⟧.cmp a b ≡ destination_cmp a b }
{}
