//! Redundancy management, alone: `NUMBER@NS` is a frame that arrives.
use crate::tests::playing::Played;
use crate::tests::words::{byte_at, moment_at, tell, tell_number};
use redundancy::{Delivery, Received, Redundancy};
use std::fmt::Write;

impl Played for Redundancy {
    fn event(word: &str) -> Received {
        Received {
            number: byte_at(word, 0),
            at: moment_at(word, 1),
        }
    }

    fn is_ready(&self) -> bool {
        true
    }

    fn tell_answer(answer: &Delivery, told: &mut String) {
        let _ = write!(told, "{answer:?} ");
    }

    // Writes the last frame delivered.
    fn tell_state(&self, told: &mut String) {
        if let Some((number, at)) = self.last() {
            tell(told, " ");
            tell_number(told, u64::from(number));
            tell(told, "@");
            tell_number(told, at.ns());
        } else {
            tell(told, " none");
        }
    }
}
