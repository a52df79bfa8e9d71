//! A regulator, alone: `offer@NS:SUB` and `release@NS`.
use crate::tests::playing::Played;
use crate::tests::words::{byte_at, moment_at, tell, tell_number};
use bag_regulator::{BagRegulator, RegAnswer, RegEvent, RegOut};
use vlink::Frame;

impl Played for BagRegulator {
    fn event(word: &str) -> RegEvent {
        let at = moment_at(word, 1);
        if word.starts_with("release") {
            return RegEvent::Release { at };
        }
        RegEvent::Offer {
            at,
            sub: byte_at(word, 2),
            frame: Frame {
                offered: at,
                ..Frame::default()
            },
        }
    }

    fn is_ready(&self) -> bool {
        true
    }

    // A frame released is written by its number and the moments of its offer and its release.
    fn tell_answer(answer: &RegOut, told: &mut String) {
        match answer.answer {
            RegAnswer::Released(frame) => {
                tell(told, "Released ");
                tell_number(told, u64::from(frame.number));
                tell(told, ":");
                tell_number(told, frame.offered.ns());
                tell(told, ":");
                tell_number(told, frame.released.ns());
            },
            RegAnswer::Kept => tell(told, "Kept"),
            RegAnswer::Dropped => tell(told, "Dropped"),
            RegAnswer::Nothing => tell(told, "Nothing"),
        }
        if let Some(ns) = answer.release_at {
            tell(told, ", release@");
            tell_number(told, ns);
        }
        tell(told, " ");
    }

    // Writes the next number, and the moment of the last release.
    fn tell_state(&self, told: &mut String) {
        tell(told, " (");
        tell_number(told, u64::from(self.sn()));
        if let Some(last) = self.last() {
            tell(told, " after ");
            tell_number(told, last.ns());
        }
        tell(told, ")");
    }
}
