//! Checks rows one after another, and gives the places of their faults.
ghost use Rattle.std.specs.Prelude.{◌≡◌, ℕ, ◌+◌, ◌^◌, ◌<◌, [], ◌∷◌, ◌++◌, List, length, MatchResult};
ghost use Rattle.network_rows.specs.declared.fault.DescFault.{DescFault as Fault};
ghost use Rattle.network.specs.Rows.{each};
ghost use Rattle.network.specs.Faults.{Tells};

use network_rows::{DescFault, Key, Place, Section};

/// A check of each row of a list.
pub trait Review {
    type Row;

    /// What the check keeps of the rows: what later rows are checked against, or what is made of them.
    type Seen;

    /// The faults of a row, given the rows before it and the row itself.
    ghost faults: { Self → List Self.Row → Self.Row → List Fault };

    /// The check keeps this of these rows.
    ghost saw: { Self → Self.Seen → List Self.Row → Type 0 };

    /// Checks the row with the place `i`.
    fn review(&self, seen: &mut Self::Seen, i: usize, row: &Self::Row) -> Result<(), DescFault>
        requires { i + 1 < 2 ^ 64 }
        ensures { (earlier : List Self.Row) → length earlier ≡ i → saw self.now seen.old earlier →
            MatchResult result (λ _. (faults self.now earlier row.now ≡ []) × saw self.now seen.new (earlier ++ row.now ∷ []))
            (λ fault. Tells fault (faults self.now earlier row.now)) };
}

/// Checks each row, and returns the first fault.
pub fn check_each<R: Review>(
    review: &R,
    seen: &mut R::Seen,
    rows: &[R::Row],
) -> Result<(), DescFault>
    requires { R.saw review.now seen.old [] }
    ensures { MatchResult result (λ _. (each (R.faults review.now) rows.now ≡ []) × R.saw review.now seen.new rows.now)
        (λ fault. Tells fault (each (R.faults review.now) rows.now)) }
{
    for (i, row) in rows.iter().enumerate() {
        review.review(seen, i, row)?;
    }
    Ok(())
}

/// Returns the place of the row number `i` of a list, counted from 0.
pub fn row_at(section: Section, i: usize) -> Place
    requires { i + 1 < 2 ^ 64 }
    ensures { result ≡ record { section = section; row = Some (i + 1); key = None } }
{
    Place {
        section,
        row: Some(i as u64 + 1),
        key: None,
    }
}

/// Returns the place of a key of a row.
pub fn key_at(section: Section, i: usize, key: Key) -> Place
    requires { i + 1 < 2 ^ 64 }
    ensures { result ≡ record { section = section; row = Some (i + 1); key = Some key } }
{
    Place {
        section,
        row: Some(i as u64 + 1),
        key: Some(key),
    }
}
