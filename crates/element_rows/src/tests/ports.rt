//! An output port, alone: `high:NUMBER:BYTES` and `low:NUMBER:BYTES` are a frame put, and `free`.
use crate::tests::playing::Played;
use crate::tests::words::{byte_at, size_at, tell, tell_number};
use output_port::{Port, PortAnswer, PortEvent, Priority};
use vlink::{Frame, busy_ns};

impl Played for Port {
    fn event(word: &str) -> PortEvent {
        if word == "free" {
            return PortEvent::Free;
        }
        let frame = Frame {
            number: byte_at(word, 1),
            size: size_at(word, 2),
            ..Frame::default()
        };
        let priority = if word.starts_with("high") {
            Priority::High
        } else {
            Priority::Low
        };
        PortEvent::Put { frame, priority }
    }

    fn is_ready(&self) -> bool {
        true
    }

    // A frame that starts is written with how long the port is busy with it, in ns, at 80 ns a byte.
    fn tell_answer(answer: &PortAnswer, told: &mut String) {
        match *answer {
            PortAnswer::Started(frame) => {
                tell(told, "Started ");
                tell_number(told, u64::from(frame.number));
                tell(told, " for ");
                tell_number(told, busy_ns(frame.size, 80));
                tell(told, " ");
            },
            PortAnswer::Kept => tell(told, "Kept "),
            PortAnswer::Dropped => tell(told, "Dropped "),
            PortAnswer::Idle => tell(told, "Idle "),
            PortAnswer::Nothing => tell(told, "Nothing "),
        }
    }

    // Writes whether it is busy, and how many bytes wait.
    fn tell_state(&self, told: &mut String) {
        tell(told, if self.is_busy() { " (busy " } else { " (idle " });
        tell_number(told, u64::from(self.waiting_bytes()));
        tell(told, ")");
    }
}
