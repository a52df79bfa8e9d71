//! The account of a virtual link, alone: `BYTES@NS` is a frame that arrives.
use crate::tests::playing::Played;
use crate::tests::words::{moment_at, size_at, tell, tell_number};
use policer::{Account, Arrival, Verdict};
use std::fmt::Write;

impl Played for Account {
    fn event(word: &str) -> Arrival {
        Arrival {
            at: moment_at(word, 1),
            size: size_at(word, 0),
        }
    }

    fn is_ready(&self) -> bool {
        true
    }

    fn tell_answer(answer: &Verdict, told: &mut String) {
        let _ = write!(told, "{answer:?} ");
    }

    // Writes the level, the cap, and the moment of the last frame.
    fn tell_state(&self, told: &mut String) {
        tell(told, " (");
        tell_number(told, self.level());
        tell(told, "/");
        tell_number(told, self.cap());
        tell(told, "@");
        tell_number(told, self.last().ns());
        tell(told, ")");
    }
}
