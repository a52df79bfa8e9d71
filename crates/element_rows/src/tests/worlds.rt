//! What a replay of a journal leaves, as far as the program does not show it. The expected values were worked out by hand.
use crate::tests::messages::tell_message;
use crate::tests::networks::text_of;
use crate::tests::playing::Played;
use crate::tests::words::{long_at, number_at, tell, tell_number};
use journal_text::read_steps;
use netdesc::read;
use std::alloc::Global;
use std::fmt::Write;
use std::mem::forget;
use timewarp::replay;
use vlink::{Letter, Sign, Step};

// Behind the network each row has the steps of a journal, and then what they leave: the letters in the mail of the line from ES1 to SW1,
// and ES1 after an undo of its events that are not committed. `3*R:0` is three times the step R of process 0. Last come texts that are read
// as journals with this many lines at most, and why they are refused; there `;` means the end of a line.
pub const ROWS: &str = "\
world brief+often, => mail | #0 (0) (idle 0)
world brief+often, T:0:1 => mail | #0 (0) (idle 0)
world brief+often, T:0:1 A:0 => mail | #0 (0) (idle 0)
world brief+often, T:0:1 A:0 R:0 => mail | #0 (0) (idle 0)
world brief+often, T:0:1 A:0 R:0 P:0 => mail +3.0.0/carry@405760:1.64.0.0.400000.400000 | #0 (0) (idle 0)
world brief+often, T:0:1 A:0 R:0 P:0 T:0:0 => mail +3.0.0/carry@405760:1.64.0.0.400000.400000 | #0 (0) (idle 0)
world brief+often, T:0:1 A:0 R:0 P:0 T:0:0 A:0 => mail +3.0.0/carry@405760:1.64.0.0.400000.400000 | #0 (0) (idle 0)
world brief+often, T:0:1 A:0 R:0 P:0 T:0:0 A:0 R:0 => mail +3.0.0/carry@405760:1.64.0.0.400000.400000 | #0 (0) (idle 0)
world brief+often, T:0:1 A:0 R:0 P:0 T:0:0 A:0 R:0 R:0 => mail +3.0.0/carry@405760:1.64.0.0.400000.400000 | #0 (0) (idle 0)
world brief+often, T:0:1 A:0 R:0 P:0 T:0:0 A:0 R:0 R:0 P:0 => mail +3.0.0/carry@405760:1.64.0.0.400000.400000 -3.0.0/carry@405760:1.64.0.0.400000.400000 +3.0.0/carry@5760:1.64.0.0.0.0 | #0 (0) (idle 0)
world brief+often, T:0:1 A:0 R:0 P:0 T:0:0 A:0 R:0 R:0 P:0 G => mail +3.0.0/carry@405760:1.64.0.0.400000.400000 -3.0.0/carry@405760:1.64.0.0.400000.400000 +3.0.0/carry@5760:1.64.0.0.0.0 | #0 (0) (idle 0)
world brief+often, T:0:1 A:0 R:0 P:0 T:0:0 A:0 R:0 R:0 P:0 G C:0 => mail +3.0.0/carry@405760:1.64.0.0.400000.400000 -3.0.0/carry@405760:1.64.0.0.400000.400000 +3.0.0/carry@5760:1.64.0.0.0.0 | #2 (1 after 0) (busy 0)
world brief+often, T:0:1 A:0 R:0 P:0 T:0:0 A:0 R:0 R:0 P:0 G C:0 C:0 => mail +3.0.0/carry@405760:1.64.0.0.400000.400000 -3.0.0/carry@405760:1.64.0.0.400000.400000 +3.0.0/carry@5760:1.64.0.0.0.0 | #2 (1 after 0) (busy 0)
world n1, T:0:0 A:0 R:0 P:0 T:3:0 A:3 R:3 P:3 T:0:0 A:0 R:0 P:0 T:2:0 A:2 R:2 P:2 T:2:0 A:2 R:2 P:2 T:5:0 A:5 R:5 P:5 T:1:0 A:1 R:1 P:1 T:2:0 A:2 R:2 P:2 G C:0 C:0 C:3 C:2 C:2 C:2 C:5 C:1 => mail | #2 (1 after 0) (idle 0)
world long+dense, 10000*T:0:1 10000*A:0 10000*R:0 T:0:0 A:0 P:0 G => mail +3.0.0/carry@6760:1.64.0.0.1000.1000 -3.0.0/carry@6760:1.64.0.0.1000.1000 | #0 (0) (idle 0)
journal 1, G;x; => too many lines
journal 2, G;x; => line 2 is no step";

// Writes what the steps leave, if they are done at once.
pub fn tell_world(alloc: Global, net: &str, script: &str, told: &mut String) {
    let mut steps = Vec::new(alloc);
    for word in script.split_whitespace() {
        push_times(&mut steps, word);
    }
    tell_after(alloc, net, &steps, told);
    drop(steps);
}

fn push_times(steps: &mut Vec<Step>, word: &str) {
    let (count, step) = word.split_once('*').unwrap_or(("1", word));
    let step = step_of(step);
    for _ in 0..number_at(count, 0) {
        let _ = steps.push(step);
    }
}

// Reads a step.
fn step_of(word: &str) -> Step {
    let (process, place) = (long_at(word, 1), long_at(word, 2));
    match word.split_once(':').unwrap_or((word, "")).0 {
        "T" => Step::Take { process, place },
        "A" => Step::Arrive { process },
        "R" => Step::Run { process },
        "P" => Step::Post { process },
        "C" => Step::Commit { process },
        _ => Step::Gvt,
    }
}

fn tell_after(alloc: Global, net: &str, steps: &[Step], told: &mut String) {
    if let Ok(text) = text_of(alloc, net) {
        tell_after_all(alloc, text.as_str(), steps, told);
    }
}

// Writes the letters for process 3, and process 0 as it was after its committed events. A function that takes a world would cost more than
// all this.
fn tell_after_all(alloc: Global, text: &str, steps: &[Step], told: &mut String) {
    let Ok(network) = read(alloc, text) else {
        return;
    };
    if let Ok(found) = replay(alloc, network, steps) {
        tell(told, "mail ");
        for place in 0..100 {
            if let Some(letter) = found.world.look(3, place) {
                tell_letter(&letter, told);
            }
        }
        tell(told, "|");
        if let Some(node) = found.world.undo_all(0) {
            node.tell_state(told);
            forget(node);
        }
    }
}

fn tell_letter(letter: &Letter, told: &mut String) {
    tell(told, if letter.sign == Sign::Plus { "+" } else { "-" });
    tell_message(&letter.message, told);
}

// Writes the result of reading this text as a journal.
pub fn tell_read(alloc: Global, most: &str, script: &str, told: &mut String) {
    if let Ok(text) = script.trim().replace(alloc, ";", "\n") {
        match read_steps(alloc, text.as_bytes(), number_at(most, 0)) {
            Ok(steps) => tell_number(told, steps.len() as u64),
            Err(fault) => {
                let _ = write!(told, "{fault}");
            }
        }
    }
}
