//! Integrity checking, alone: an event is the number of a frame received.
use crate::tests::playing::Played;
use crate::tests::words::{byte_at, tell, tell_number};
use integrity::{Checked, Integrity};
use std::fmt::Write;

impl Played for Integrity {
    fn event(word: &str) -> u8 {
        byte_at(word, 0)
    }

    fn is_ready(&self) -> bool {
        true
    }

    fn tell_answer(answer: &Checked, told: &mut String) {
        let _ = write!(told, "{answer:?} ");
    }

    // Writes the previous number.
    fn tell_state(&self, told: &mut String) {
        if let Some(previous) = self.previous() {
            tell(told, " ");
            tell_number(told, u64::from(previous));
        } else {
            tell(told, " none");
        }
    }
}
