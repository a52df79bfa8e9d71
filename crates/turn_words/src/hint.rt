//! A group that should get a turn.
ghost use Rattle.std.specs.Prelude.{◌≡◌, ◌<◌};

use std::marker::PhantomData;

/// The run to which the groups belong, by its type.
pub trait TurnRun {
    ghost use Rattle.std.specs.Prelude.{ℕ};

    /// The number of its groups.
    ghost groups: { ℕ };
}

/// A group that should get a turn. By its type it is one of the run; no proof covers whether it has something to do.
#[derive(Drop)]
pub struct Hint<R: TurnRun> {
    pub group: u16,
    of: PhantomData<R>,
    pub ghost inside: { group < R.groups },
}

impl<R: TurnRun> Hint<R> {
    /// Makes a hint at this group.
    pub fn new(group: u16) -> Self
        requires { group < R.groups }
        ensures { result.group ≡ group }
    {
        Hint {
            group,
            of: PhantomData,
        }
    }

    /// Returns a copy of the hint.
    pub fn again(&self) -> Self
        ensures { result.group ≡ self.now.group }
    {
        Hint::new(self.group)
    }
}
