//! An element whose events can be undone.
ghost use Rattle.std.specs.Prelude.{◌≡◌};
ghost use Rattle.reverse.specs.Plain.{Plain, CameFrom, IsReversible};

/// An element whose events can be undone, the newest first, each by the record that it left (reverse computation after Carothers, Perumalla
/// and Fujimoto).
pub trait Reversible {
    type Event;

    type Out: Drop;

    type Record: Copy;

    /// What the element does, as plain functions of a state and an event.
    ghost plain: { Plain Self Self.Event Self.Out Self.Record };

    /// The state and the event are values of their types; for instance, lengths lie within their room.
    ghost is_value: { Self → Self.Event → Type 0 };

    /// What `apply` requires of its caller.
    ghost can_apply: { Self → Type 0 };

    /// Handles the event. Returns the answer, and the record by which the event is undone.
    fn apply(&mut self, event: &Self::Event) -> (Self::Out, Self::Record)
        requires { can_apply self.old }
        ensures state { self.new ≡ plain.after self.old event.now }
        ensures answer { result.0 ≡ plain.out self.old event.now }
        ensures saved { result.1 ≡ plain.saves self.old event.now }
        ensures valid { is_value self.old event.now };

    /// Undoes the event. The state and the record must come from it.
    fn undo(&mut self, event: &Self::Event, kept: Self::Record)
        requires { CameFrom plain is_value self.old event.now kept }
        ensures { self.new ≡ plain.before self.old event.now kept };

    /// The inverse law, for every state and event.
    ghost undoes: { IsReversible plain };
}
