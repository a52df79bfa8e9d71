//! A virtual link at its destination.
ghost use Rattle.nodes.specs.rules.EndSystem.{reception_number};

use crate::finding::Numbered;
use crate::receiving::Receiving;
use crate::vl_end::VlEnd;

/// A virtual link at an end system that is its destination.
#[derive(Drop)]
pub struct Reception {
    pub end: VlEnd,
    pub receiving: Receiving,
}

impl Numbered for Reception {
    ghost number = { reception_number };

    fn number(&self) -> u16 {
        self.end.vl.0
    }
}
