//! The first fault of a document, kind by kind.
ghost use Rattle.std.specs.Prelude.{◌≡◌};
ghost use Rattle.network_rows.specs.Firsts.{nowhere, stored, told_fault};

use crate::fault::{DescFault, KeyFault, Place};

/// The first place of each kind of fault, while a document is read in its order.
#[derive(Clone, Copy)]
pub struct FirstPlaces {
    pub missing: Option<Place>,
    pub wrong_kind: Option<Place>,
    pub out_of_limit: Option<Place>,
}

impl FirstPlaces {
    /// No fault yet.
    pub fn none() -> Self
        ensures { result ≡ nowhere }
    {
        FirstPlaces {
            missing: None,
            wrong_kind: None,
            out_of_limit: None,
        }
    }

    /// Stores a fault that comes after those stored before.
    pub fn note(&mut self, fault: KeyFault, place: Place)
        ensures { self.new ≡ stored self.old fault place }
    {
        match fault {
            KeyFault::Missing => self.missing = Some(self.missing.unwrap_or(place)),
            KeyFault::WrongKind => self.wrong_kind = Some(self.wrong_kind.unwrap_or(place)),
            KeyFault::OutOfLimit => self.out_of_limit = Some(self.out_of_limit.unwrap_or(place)),
        }
    }

    /// Returns the fault to report, if any: a missing key before a wrong type, and a wrong type before a value outside its limit.
    pub fn told_fault(&self) -> Option<DescFault>
        ensures { result ≡ told_fault self.now.missing self.now.wrong_kind self.now.out_of_limit }
    {
        if let Some(place) = self.missing {
            return Some(DescFault::Missing(place));
        }
        if let Some(place) = self.wrong_kind {
            return Some(DescFault::WrongKind(place));
        }
        let place = self.out_of_limit?;
        Some(DescFault::OutOfLimit(place))
    }
}
