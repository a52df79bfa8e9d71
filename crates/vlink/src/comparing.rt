//! How frames are compared: by virtual link, number, size, offer, release and network. Their fields lie in memory in another order.
ghost use Rattle.std.specs.Prelude.{◌≡◌};
ghost use Rattle.std.specs.Cmp.{on_per, on_equiv, on_po, on_total};
ghost use Rattle.vlink.specs.Order.{key_of};
ghost use Rattle.vlink.specs.contracts.comparing.FrameKeyPartialEq.TheImpl.Laws as key_eq;
ghost use Rattle.vlink.specs.contracts.comparing.FrameKeyEq.TheImpl.Laws as key_equiv;
ghost use Rattle.vlink.specs.contracts.comparing.FrameKeyPartialOrd.TheImpl.Laws as key_partial;
ghost use Rattle.vlink.specs.contracts.comparing.FrameKeyOrd.TheImpl.Laws as key_total;

use crate::frame::{Frame, FrameSize, Net, VlId};
use crate::time::Time;
use std::cmp::Ordering;

/// The fields of a frame, in the order in which frames are compared.
#[derive(Clone, Copy, PartialEq, Eq, PartialOrd, Ord)]
struct FrameKey {
    vl: VlId,
    number: u8,
    size: FrameSize,
    offered: Time,
    released: Time,
    net: Net,
}

/// All of a frame, in the order in which frames are compared.
#[inline(always)]
fn key_of(frame: &Frame) -> FrameKey
    ensures { result ≡ key_of frame.now }
{
    FrameKey {
        vl: frame.vl,
        number: frame.number,
        size: frame.size,
        offered: frame.offered,
        released: frame.released,
        net: frame.net,
    }
}

impl PartialEq for Frame {
    ghost eq = { λ f g. ⟦<FrameKey as PartialEq>⟧.eq (key_of f) (key_of g) };

    ghost laws = { on_per key_of key_eq.laws-law };

    fn eq(&self, other: &Self) -> bool {
        key_of(self) == key_of(other)
    }
}

impl Eq for Frame {
    ghost laws = { on_equiv key_of key_equiv.laws-law };
}

impl PartialOrd for Frame {
    ghost partial_cmp = { λ f g. ⟦<FrameKey as PartialOrd>⟧.partial_cmp (key_of f) (key_of g) };

    ghost laws = { on_po key_of key_partial.laws-law };

    fn partial_cmp(&self, other: &Self) -> Option<Ordering> {
        key_of(self).partial_cmp(&key_of(other))
    }
}

impl Ord for Frame {
    ghost cmp = { λ f g. ⟦<FrameKey as Ord>⟧.cmp (key_of f) (key_of g) };

    ghost total = { on_total key_of key_total.total-law };

    ghost matches_partial_cmp = { λ f g. key_total.matches_partial_cmp-law (key_of f) (key_of g) };

    ghost matches_eq = { λ f g. key_total.matches_eq-law (key_of f) (key_of g) };

    fn cmp(&self, other: &Self) -> Ordering {
        key_of(self).cmp(&key_of(other))
    }
}
