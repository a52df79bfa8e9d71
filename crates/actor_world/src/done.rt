//! The result of a step of a world.
ghost use Rattle.std.specs.Prelude.{◌≡◌, ◌+◌, ◌<◌, ◌^◌};
ghost use Rattle.actor_world.specs.declared.done.Done.TheVariants.{Did, NotEnabled};

/// The result of a step that was not refused.
#[derive(Clone, Copy)]
pub enum Done {
    /// It was done.
    Did,
    /// It is not enabled, and changed nothing.
    NotEnabled,
}

impl Done {
    /// Counts the step, either as done or as not enabled.
    #[inline(always)]
    pub fn count(self, did: &mut u64, not_enabled: &mut u64)
        requires { did.old + not_enabled.old < 2 ^ 63 }
        ensures did { self ≡ Did → (did.new ≡ did.old + 1) × (not_enabled.new ≡ not_enabled.old) }
        ensures not_enabled { self ≡ NotEnabled → (did.new ≡ did.old) × (not_enabled.new ≡ not_enabled.old + 1) }
    {
        match self {
            Done::Did => *did += 1,
            Done::NotEnabled => *not_enabled += 1,
        }
    }
}
