//! Why there is no bound.
ghost use Rattle.std.specs.Prelude.{◌≡◌};
ghost use Rattle.network_bounds.specs.Said.{reason_name};

/// Why there is no bound.
#[derive(Clone, Copy)]
pub enum Reason {
    /// More may come to a port than its line can send.
    Rate,
    /// Each frame is longer than Smax: no switch passes it.
    Size,
    /// The virtual link does not come there.
    Way,
    /// A number exceeds 128 bits.
    Number,
}

/// Returns the text of a reason.
pub(crate) fn reason_name<'a>(reason: Reason) -> &'a str
    ensures { result.now ≡ reason_name reason }
{
    match reason {
        Reason::Rate => "rate",
        Reason::Size => "size",
        Reason::Way => "way",
        Reason::Number => "number",
    }
}
