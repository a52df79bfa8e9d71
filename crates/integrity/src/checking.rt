//! Integrity checking of one virtual link on one network.
ghost use Rattle.std.specs.Prelude.{◌≡◌, ℕ, Option, None};
ghost use Rattle.integrity.specs.Integrity.{passes};

use reverse::Reversible;
use std::marker::Model;
use vlink::next_sn;

/// The verdict of integrity checking on a frame.
#[derive(Clone, Copy, Debug)]
pub enum Checked {
    Passed,
    Refused,
}

/// Integrity checking of one virtual link on one network, at a receiver (ARINC 664 Part 7).
///
/// A frame passes if none was received before it, if its number is 0, or if its number is one or two steps after the previous one. The
/// previous number is that of the last frame received, whether it passed or not (profile).
///
/// The event is the number of a frame. Clauses see the previous number, or none.
#[derive(Clone, Copy)]
pub struct Integrity {
    previous: Option<u8>,
}

impl Model for Integrity {
    ghost Value = { Option ℕ };

    ghost view = { λ i. i.previous };

    ghost inverse = { λ previous. record { previous = previous } };
}

impl Integrity {
    /// The state before any frame is received.
    pub fn new() -> Self
        ensures { result ≡ None }
    {
        Integrity { previous: None }
    }

    /// Returns the number of the last frame received, passed or not.
    pub fn previous(self) -> Option<u8>
        ensures { result ≡ self }
    {
        self.previous
    }

    /// Undoes a frame, by its record.
    pub fn take_back(&mut self, kept: Option<u8>)
        ensures { self.new ≡ kept }
    {
        self.previous = kept;
    }

    /// Whether a frame of this number passes now.
    fn passes(self, number: u8) -> bool
        ensures { result ≡ passes self number }
    {
        match self.previous {
            None => true,
            Some(previous) => {
                let next = next_sn(previous);
                number == 0 || number == next || number == next_sn(next)
            }
        }
    }
}

impl Default for Integrity {
    ghost is_default = { λ i. i ≡ None };

    fn default() -> Self {
        Integrity::new()
    }
}

impl Reversible for Integrity {
    ghost use Rattle.std.specs.Prelude.{⊤, refl};
    ghost use Rattle.integrity.specs.Integrity.{integrity};

    type Event = u8;

    type Out = Checked;

    type Record = Option<u8>;

    ghost plain = { integrity };

    ghost is_value = { λ _ _. ⊤ };

    ghost can_apply = { λ _. ⊤ };

    ghost undoes = { λ previous number. refl };

    #[inline(always)]
    fn apply(&mut self, event: &u8) -> (Checked, Option<u8>) {
        let number = *event;
        let kept = self.previous;
        let check = if self.passes(number) {
            Checked::Passed
        } else {
            Checked::Refused
        };
        self.previous = Some(number);
        (check, kept)
    }

    fn undo(&mut self, _event: &u8, kept: Option<u8>) {
        self.take_back(kept);
    }
}
