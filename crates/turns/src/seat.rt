//! A group, and how far it is.
ghost use Rattle.std.specs.Prelude.{◌≡◌};

/// A group, and how far it is.
#[derive(Drop)]
pub struct Seat<G> {
    pub group: G,
    /// The moment of its next event, in ns.
    pub next_ns: u64,
    /// How many messages it handled since it last announced what it did.
    pub unposted: u32,
}

impl<G> Seat<G> {
    /// Makes the seat of a group that has had no turn.
    pub(crate) fn new(group: G) -> Self
        ensures { result.group ≡ group }
    {
        Seat {
            group,
            next_ns: u64::MAX,
            unposted: 0,
        }
    }
}
