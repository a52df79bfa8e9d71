//! Whether a run stands still.
//!
//! What a look makes of the count is exact. When the calling thread looks, and which GVT it then sees, has no clause.
ghost use Rattle.std.specs.Prelude.{◌≡◌, ◌≢◌, ◌↔◌, ◌≤◌, ◌+◌, min, IsTrue};
ghost use Rattle.turns.specs.declared.TheConstants.{LOOKS_OF_STANDSTILL};
ghost use Rattle.turns.specs.Meeting.{most_u32};

use crate::LOOKS_OF_STANDSTILL;

/// How often the calling thread has found the same GVT.
#[derive(Clone, Copy)]
pub(crate) struct Standstill {
    pub(crate) gvt_ns: u64,
    pub(crate) looks: u32,
}

impl Standstill {
    /// The count for a run that has just begun.
    pub(crate) fn none() -> Self
        ensures { result ≡ record { gvt_ns = 0; looks = 0 } }
    {
        Standstill {
            gvt_ns: 0,
            looks: 0,
        }
    }

    /// Notes that the calling thread found this GVT, in ns. Returns whether it found the same one so often that the run stands still.
    pub(crate) fn look(&mut self, gvt_ns: u64) -> bool
        ensures gvt { self.new.gvt_ns ≡ gvt_ns }
        ensures same { gvt_ns ≡ self.old.gvt_ns → self.new.looks ≡ min (self.old.looks + 1) most_u32 }
        ensures other { gvt_ns ≢ self.old.gvt_ns → self.new.looks ≡ 0 }
        ensures stands { IsTrue result ↔ (LOOKS_OF_STANDSTILL ≤ self.new.looks) }
    {
        if gvt_ns == self.gvt_ns {
            self.looks = self.looks.saturating_add(1);
        } else {
            self.gvt_ns = gvt_ns;
            self.looks = 0;
        }
        self.looks >= LOOKS_OF_STANDSTILL
    }
}
