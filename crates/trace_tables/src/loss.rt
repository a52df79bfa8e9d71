//! Frames that were dropped, by virtual link, place and cause.
ghost use Rattle.std.specs.Prelude.{◌≡◌};
ghost use Rattle.vlink.specs.declared.note.Cause.{Cause};
ghost use Rattle.trace_tables.specs.declared.loss.Loss.{Loss};
ghost use Rattle.std.specs.Ordering.{nat_cmp};
ghost use Rattle.trace_tables.specs.Losses.{cause_number, loss_cmp};

use vlink::{Cause, VlId};

/// The frames that are counted together: those of one virtual link that were dropped at one process for one cause.
///
/// Losses are ordered by their fields, in order.
#[derive(Clone, Copy, PartialEq, Eq, PartialOrd, Ord)]
pub struct Loss {
    pub vl: VlId,
    /// The process: a node, or a line behind the nodes.
    pub place: u16,
    pub cause: Cause,
}

/// The derived order of causes is that of their numbers.
fn cause_order_law()
    ensures { (a b : Cause) → ⟦<Cause as Ord>⟧.cmp a b ≡ nat_cmp (cause_number a) (cause_number b) }
{}

/// The derived order of losses is the order written out.
pub(crate) fn loss_order_law()
    ensures { (a b : Loss) → ⟦<Loss as Ord>⟧.cmp a b ≡ loss_cmp a b }
{
    cause_order_law();
}
