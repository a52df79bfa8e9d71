//! A watch, which is shown how far a run is. A look gives the events since the last look, and not all: so its number cannot overflow.
ghost use Rattle.std.specs.Prelude.{◌+◌, ◌<◌, ◌≤◌};
ghost use Rattle.reverse.specs.declared.sends.TheConstants.{MOST_SENT};
ghost use Rattle.actor_run.specs.declared.watch.TheConstants.{EVENTS_PER_LOOK};

use vlink::Time;

/// The number of events between two looks of a watch.
const EVENTS_PER_LOOK: u32 = 65_536;

/// Is shown, now and then, how far a run is. It may pass that on; the run is the same as without it.
pub trait Watch {
    /// What looks alone may make of a watch.
    ghost becomes: { Self → Self → Type 0 };

    /// One more look: the run has reached this moment of simulated time, and handled this many events since the last look.
    fn look(&mut self, moment: Time, events: u32)
        ensures { becomes self.old self.new };

    /// No look at all is one such case.
    ghost stays: { (watch : Self) → becomes watch watch };

    /// Some looks and then some more are again looks.
    ghost goes_on: { (first next last : Self) → becomes first next → becomes next last → becomes first last };
}

/// Counts these events more, at this moment, after `unseen` events that the watch has not seen. Returns how many it has not seen now.
#[inline(always)]
pub(crate) fn show_events<W: Watch>(watch: &mut W, moment: Time, unseen: u32, events: u32) -> u32
    requires unseen { unseen < EVENTS_PER_LOOK }
    requires events { events ≤ MOST_SENT + 1 }
    ensures few { result < EVENTS_PER_LOOK }
    ensures watched { W.becomes watch.old watch.new }
{
    let unseen = unseen + events;
    if unseen < EVENTS_PER_LOOK {
        return unseen;
    }
    watch.look(moment, unseen);
    0
}

impl<W: Watch> Watch for &mut W {
    ghost use Rattle.std.specs.Prelude.{◌≡◌};
    ghost use Rattle.std.proofs.Common.{refl, ◌∙◌};

    ghost becomes = { λ old new. (new.ghost_name ≡ old.ghost_name) × W.becomes old.now new.now };

    #[inline(always)]
    fn look(&mut self, moment: Time, events: u32) {
        (**self).look(moment, events);
    }

    ghost stays = { λ watch. (refl, W.stays watch.now) };

    ghost goes_on = { λ first next last some more. (more.0 ∙ some.0, W.goes_on first.now next.now last.now some.1 more.1) };
}

/// Nobody watches.
#[derive(Drop)]
pub struct Unwatched;

impl Watch for Unwatched {
    ghost becomes = { λ _ _. Unit {0} };

    #[inline(always)]
    fn look(&mut self, _moment: Time, _events: u32) {}

    ghost stays = { λ _. tt };

    ghost goes_on = { λ _ _ _ _ _. tt };
}
