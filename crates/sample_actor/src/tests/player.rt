//! Plays a script on a process of the test actor, and writes the answers of its words.
//!
//! A word is the name of a call. Its numbers stand behind colons, moments in ns. `+10` and `-10@1` deliver a letter for the moment 10: its
//! sign, and behind an @ its sender, 2 if none is given. An answer is written as a number, 1 for yes, or as `none`. `alone:7` runs an actor
//! with the counter 7 on one thread, and `back` lets an actor handle three messages and undo them. Letters are written as `+15.0`, with
//! their number, and messages as `10@2`. The end of the run is the greatest moment.
use super::{alone, asking, mailing};
use crate::Summing;
use antimessages::Mail;
use gvt::Floors;
use process_queues::{ProcFault, Process, sending_law};
use std::alloc::Global;
use std::fmt::Write;
use std::mem::{forget, replace};
use vlink::{LATEST_NS, Letter, Message, Sign, Time};

// What a script acts on: a process, and the mail and the floors of three processes.
#[derive(Drop)]
pub(crate) struct Stage {
    pub(crate) process: Process<Summing>,
    pub(crate) mail: Mail,
    pub(crate) floors: Floors,
}

// Writes the answers of the words of the script, and the sum and the counter of the actor once all is undone. Returns whether it had memory
// to begin.
pub(crate) fn play(rt: &HostRuntime, script: &str, told: &mut String) -> bool {
    match open(rt.alloc()) {
        Ok(stage) => {
            play_on(rt, stage, told, script);
            true
        }
        Err(_) => false,
    }
}

fn play_on(rt: &HostRuntime, mut stage: Stage, told: &mut String, script: &str) {
    play_words(rt, &mut stage, told, script);
    tell_end(stage.process, told);
}

fn play_words(rt: &HostRuntime, stage: &mut Stage, told: &mut String, script: &str) {
    for word in script.split_whitespace() {
        play_word(rt, stage, told, word);
    }
}

// Makes a stage on which nothing was done.
fn open(alloc: Global) -> Result<Stage, ProcFault> {
    let floors = Floors::new(alloc, 3, Time::of_known(LATEST_NS))?;
    let mail = Mail::new(alloc, 3)?;
    Ok(Stage {
        process: Process::new(alloc, actor(0))?,
        mail,
        floors,
    })
}

// Writes the sum and the counter of the actor once all is undone.
fn tell_end(process: Process<Summing>, told: &mut String) {
    sending_law::<Summing>();
    process.stands_law();
    let actor = process.undo_all();
    let _ = write!(told, "sum {} counter {}", actor.sum, actor.counter);
}

// Does one word. A word that was refused memory is done again, except `arrive?`: `tools/gate/refuse_memory.py` counts the refusals.
fn play_word(rt: &HostRuntime, stage: &mut Stage, told: &mut String, word: &str) {
    match act(rt.alloc(), stage, told, word) {
        Ok(()) => {}
        Err(ProcFault::Exhausted) => tell(told, "exhausted "),
        Err(ProcFault::OutOfMemory) => {
            tell_refused(rt, word);
            if word == "arrive?" || act(rt.alloc(), stage, told, word).is_err() {
                tell(told, "refused ");
            }
        }
    }
}

// Writes the line of a word that was refused memory.
pub(crate) fn tell_refused(rt: &HostRuntime, word: &str) {
    let (call, _) = split_at_colon(word);
    let _ = eprintln!(rt; "{call} was refused memory");
}

// Returns the call that a word names, and the text behind the colon.
pub(crate) fn split_at_colon(word: &str) -> (&str, &str) {
    word.split_once(':').unwrap_or((word, ""))
}

// Does a letter, a call that can be refused, or a call that looks at something.
fn act(alloc: Global, stage: &mut Stage, told: &mut String, word: &str) -> Result<(), ProcFault> {
    let (call, rest) = split_at_colon(word);
    match call {
        "arrive" | "arrive?" | "run" | "seal" | "commit" => {
            asking::tell_asked(&mut stage.process, told, call, rest)
        }
        "post" | "reserve_post" => mailing::post(&mut stage.process, &mut stage.mail, call),
        "send" => mailing::send(alloc, &mut stage.mail, rest),
        _ if word.starts_with('+') || word.starts_with('-') => stage.process.deliver(letter(word)),
        _ => act_beside(alloc, stage, told, call, rest),
    }
}

// Does the words that few scripts have, and those that look at something.
fn act_beside(
    alloc: Global,
    stage: &mut Stage,
    told: &mut String,
    call: &str,
    rest: &str,
) -> Result<(), ProcFault> {
    match call {
        "counter" => set_counter(alloc, stage, number(rest)),
        "reserve_letters" => stage.process.reserve_letters(number(rest) as usize),
        "reserve_rows" => stage.process.reserve_rows(number(rest) as usize),
        "alone" => alone::tell_run(alloc, told, number(rest)),
        "back" => alone::tell_back(alloc, told),
        _ => {
            look(stage, told, call, rest);
            Ok(())
        }
    }
}

// Makes a process of an actor with this counter.
fn set_counter(alloc: Global, stage: &mut Stage, counter: u64) -> Result<(), ProcFault> {
    let process = Process::new(alloc, actor(counter))?;
    forget(replace(&mut stage.process, process));
    Ok(())
}

// Does a word that nothing refuses.
fn look(stage: &mut Stage, told: &mut String, call: &str, rest: &str) {
    match call {
        "take" => mailing::take(&mut stage.mail, told, rest),
        "set" | "lower" => mailing::put(&mut stage.floors, call, rest),
        "horizon" => tell_number(told, gvt::horizon(&stage.floors, &stage.mail).ns()),
        _ => asking::look(&stage.process, told, call, rest),
    }
}

// Writes a text. If it finds no room it is left out, and then the row is wrong.
pub(crate) fn tell(told: &mut String, text: &str) {
    let _ = told.push_str(text);
}

pub(crate) fn tell_number(told: &mut String, number: u64) {
    let _ = write!(told, "{number} ");
}

pub(crate) fn tell_answer(told: &mut String, answer: Option<u64>) {
    match answer {
        Some(number) => tell_number(told, number),
        None => tell(told, "none "),
    }
}

// Makes the test actor with this counter.
pub(crate) fn actor(counter: u64) -> Summing {
    let mut actor = Summing::new(Time::of_known(LATEST_NS));
    actor.counter = counter;
    actor
}

pub(crate) fn moment(ns: u64) -> Time {
    Time::new(ns).unwrap_or_default()
}

pub(crate) fn number(digits: &str) -> u64 {
    digits.parse().unwrap_or_default()
}

// Reads two numbers with a colon between.
pub(crate) fn two_numbers(digits: &str) -> (u64, u64) {
    let (first, second) = split_at_colon(digits);
    (number(first), number(second))
}

// Reads a letter for process 0, or, without a sign, the plus letter of a message.
pub(crate) fn letter(written: &str) -> Letter {
    let (ns, sender) = written.split_once('@').unwrap_or((written, "2"));
    let (ns, sign) = match ns.strip_prefix('-') {
        Some(ns) => (ns, Sign::Minus),
        None => (ns.strip_prefix('+').unwrap_or(ns), Sign::Plus),
    };
    let message = Message {
        time: moment(number(ns)),
        sender: sender.parse().unwrap_or_default(),
        ..Message::default()
    };
    Letter { message, sign }
}
