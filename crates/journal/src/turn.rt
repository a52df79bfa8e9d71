//! The steps of a turn, as three counts.
ghost use Rattle.std.specs.Prelude.{◌≡◌, ◌<◌, ◌^◌, ℕ, List, true, false, [], ◌∷◌, ◌++◌, length, slice_get};
ghost use Rattle.std.specs.Option.{option_map};
ghost use Rattle.virtual_time.specs.declared.moved.Move.{Move};
ghost use Rattle.journal.specs.Moves.{turn_moves};

use virtual_time::Move;

/// What a process does in a turn: a number of arrivals, then a number of runs, then a number of commits.
#[derive(Clone, Copy)]
pub(crate) struct Turn {
    pub(crate) arrivals: u32,
    pub(crate) runs: u32,
    pub(crate) commits: u32,
}

impl Turn {
    /// Returns the number of steps.
    pub(crate) fn len(self) -> usize
        ensures count { result ≡ length (turn_moves self) }
        ensures few { result < 2 ^ 34 }
    {
        self.arrivals as usize + self.runs as usize + self.commits as usize
    }

    /// Returns the step number `at`, from 0, or none behind the last one.
    pub(crate) fn get(self, at: usize) -> Option<Move>
        ensures { result ≡ slice_get (turn_moves self) at }
    {
        let ran = self.arrivals as usize;
        let handled = ran + self.runs as usize;
        if at < ran {
            Some(Move::Arrived)
        } else if at < handled {
            Some(Move::Ran)
        } else if at < handled + self.commits as usize {
            Some(Move::Committed)
        } else {
            None
        }
    }

    /// Counts one more step. Returns false if the step cannot follow the counted ones, or if its count is at its greatest value.
    pub(crate) fn add(&mut self, moved: Move) -> bool
        ensures added { result ≡ true → turn_moves self.new ≡ turn_moves self.old ++ moved ∷ [] }
        ensures unchanged { result ≡ false → self.new ≡ self.old }
    {
        match moved {
            Move::Arrived => {
                if self.runs > 0 || self.commits > 0 || self.arrivals == u32::MAX {
                    return false;
                }
                self.arrivals += 1;
            }
            Move::Ran => {
                if self.commits > 0 || self.runs == u32::MAX {
                    return false;
                }
                self.runs += 1;
            }
            Move::Committed => {
                if self.commits == u32::MAX {
                    return false;
                }
                self.commits += 1;
            }
        }
        true
    }

    /// Removes the last step.
    pub(crate) fn pop(&mut self)
        ensures { (moves : List Move) (last : Move) → turn_moves self.old ≡ moves ++ last ∷ [] → turn_moves self.new ≡ moves }
    {
        if self.commits > 0 {
            self.commits -= 1;
        } else if self.runs > 0 {
            self.runs -= 1;
        } else if self.arrivals > 0 {
            self.arrivals -= 1;
        }
    }
}
