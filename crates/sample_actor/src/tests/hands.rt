//! Plays a script on a group of passing actors, and writes the answers of its words.
//!
//! `hand:3` opens a group of processes 0 to 2 of five. `+10:1` and `-10:1:7:4` deliver a letter for the moment 10 to process 1: its sign,
//! and behind further colons its sender, 9 if none is given, and its number, 0 if none is given. `arrive`, `run:50` and `commit:20` are the
//! calls `arrive_all`, `run_next` and `commit_below`; `exact` is `count_done`, and writes the floor; `gone:20` lets rows leave that are
//! earlier than 20; `before:20` writes whether some event is done before 20, and the oldest moment of one; `steps` writes how many steps
//! all blocks so far represent; and `next`, `floor`, `abroad`, `rows` and `states` write what can be seen. Behind its answer each word
//! writes its block, up to a full stop: a letter for what was done, and the process. `R`: a message was handled; `H` and `T`: what was sent
//! to a member arrived at once, or waits; `A`: the front of the tray arrived; `C`: an event was committed.
use super::player::{moment, number, split_at_colon, tell, tell_number, tell_refused};
use crate::Passing;
use group_hand::{Hand, HandFault, Word};
use std::alloc::Global;
use std::fmt::Write;
use std::mem::forget;
use vlink::{LATEST_NS, Letter, Message, Row, Sign, Time};

// The number of processes that letters can be for.
const PROCESSES: u16 = 5;

// Writes the answers of the words of the script, one after another. Returns whether it had memory to begin.
pub(crate) fn play(rt: &HostRuntime, script: &str, told: &mut String) -> bool {
    let (opening, words) = script.split_once(' ').unwrap_or((script, ""));
    let (_, members) = split_at_colon(opening);
    match open(rt.alloc(), number(members)) {
        Ok(mut hand) => {
            play_words(rt, &mut hand, told, words);
            forget(hand);
            true
        }
        Err(_) => false,
    }
}

// Makes a group of the first `count` processes.
fn open(alloc: Global, count: u64) -> Result<Hand<Passing>, HandFault> {
    let mut members = Vec::new(alloc);
    add_members(&mut members, count)?;
    Hand::new(alloc, members, Vec::new(alloc), true)
}

fn add_members(members: &mut Vec<Option<Passing>>, count: u64) -> Result<(), HandFault> {
    for process in 0..PROCESSES {
        if members.push(member(process, count)).is_err() {
            return Err(HandFault::OutOfMemory);
        }
    }
    Ok(())
}

fn member(process: u16, count: u64) -> Option<Passing> {
    if u64::from(process) < count {
        Some(Passing::new(process, Time::of_known(LATEST_NS)))
    } else {
        None
    }
}

fn play_words(rt: &HostRuntime, hand: &mut Hand<Passing>, told: &mut String, words: &str) {
    let mut steps = 0;
    for word in words.split_whitespace() {
        play_word(rt, hand, told, word);
        look(hand, told, word, steps);
        tell_block(rt.alloc(), hand, &mut steps, told);
    }
}

// Does the steps of a word. If they are refused memory, they are done again: a refused call stopped between two words of its block.
// `tools/gate/refuse_memory.py` counts the words that were refused memory.
fn play_word(rt: &HostRuntime, hand: &mut Hand<Passing>, told: &mut String, word: &str) {
    match do_steps(hand, told, word) {
        Ok(()) => {}
        Err(HandFault::Exhausted) => tell(told, "exhausted "),
        Err(HandFault::OutOfMemory) => {
            tell_refused(rt, word);
            if do_steps(hand, told, word).is_err() {
                tell(told, "refused ");
            }
        }
    }
}

// A letter, or a call that does steps.
fn do_steps(hand: &mut Hand<Passing>, told: &mut String, word: &str) -> Result<(), HandFault> {
    let (call, rest) = split_at_colon(word);
    let at = moment(number(rest));
    match call {
        "arrive" => hand.arrive_all(),
        "commit" => hand.commit_below(at),
        "run" => tell_run(hand.run_next(at), told),
        "exact" => hand.count_done(),
        "gone" => hand.let_rows_go(at),
        _ => deliver(hand, word),
    }
}

// Writes whether the first message was handled or moved to the tally.
fn tell_run(ran: Result<bool, HandFault>, told: &mut String) -> Result<(), HandFault> {
    tell(told, if ran? { "ran " } else { "idle " });
    Ok(())
}

// Delivers a letter to a member, if it is for one.
fn deliver(hand: &mut Hand<Passing>, word: &str) -> Result<(), HandFault> {
    if !word.starts_with('+') && !word.starts_with('-') {
        return Ok(());
    }
    let letter = letter(word);
    if !hand.has(letter.message.receiver) {
        return Ok(());
    }
    hand.deliver(letter)
}

// Writes the answers of the word about the group once its steps are done; all blocks so far represent `steps` steps.
fn look(hand: &mut Hand<Passing>, told: &mut String, word: &str, steps: u64) {
    let (call, rest) = split_at_colon(word);
    match call {
        "steps" => tell_number(told, steps),
        "next" => tell_next(hand.next(), told),
        "floor" | "exact" => tell_number(told, hand.floor(Time::of_known(LATEST_NS + 1)).ns()),
        "before" => tell_before(hand, told, moment(number(rest))),
        "abroad" => tell_abroad(hand, told),
        "rows" => tell_rows(hand.rows(), told),
        "states" => tell_states(hand.members(), told),
        _ => {}
    }
}

// Ends the block, and writes its words.
fn tell_block(alloc: Global, hand: &mut Hand<Passing>, steps: &mut u64, told: &mut String) {
    let block = hand.next_block(alloc);
    *steps = steps.saturating_add(block.steps());
    if block.keeps() {
        tell_words(block.list(), told);
    }
    tell(told, ". ");
}

fn tell_words(words: &[Word], told: &mut String) {
    for did in words {
        tell_did(*did, told);
    }
}

fn tell_did(did: Word, told: &mut String) {
    let (letter, process) = match did {
        Word::Ran { process } => ("R", process),
        Word::Home { process } => ("H", process),
        Word::Taken { process } => ("T", process),
        Word::Arrived { process } => ("A", process),
        Word::Committed { process } => ("C", process),
    };
    tell(told, letter);
    tell_number(told, u64::from(process));
}

// Writes the first message of the queue.
fn tell_next(next: Option<Message>, told: &mut String) {
    match next {
        Some(message) => tell_message(&message, told),
        None => tell(told, "none "),
    }
}

// Writes whether some event is done before the moment, and the oldest moment of one.
fn tell_before(hand: &Hand<Passing>, told: &mut String, limit: Time) {
    let done = hand.is_done_before(limit);
    tell(told, if done { "yes " } else { "no " });
    if hand.all_committed() {
        return tell(told, "none ");
    }
    if let Some(oldest) = hand.oldest() {
        tell_number(told, oldest.ns());
    }
}

// Writes the letters for others, which leave.
fn tell_abroad(hand: &mut Hand<Passing>, told: &mut String) {
    tell_letters(hand.letters_abroad(), told);
    hand.clear_abroad();
}

fn tell_letters(letters: &[Letter], told: &mut String) {
    for letter in letters {
        tell(told, if letter.sign == Sign::Plus { "+" } else { "-" });
        tell_message(&letter.message, told);
    }
}

// Writes the events whose rows are sealed.
fn tell_rows(rows: &[Row], told: &mut String) {
    for row in rows {
        tell_message(&row.message, told);
    }
}

// Writes the sum and the counter of each member.
fn tell_states(members: &[Option<Passing>], told: &mut String) {
    for member in members {
        if let Some(actor) = member {
            let _ = write!(told, "{}.{} ", actor.sum, actor.counter);
        }
    }
}

// Writes a message as its letter, without the sign.
fn tell_message(message: &Message, told: &mut String) {
    let (ns, receiver) = (message.time.ns(), message.receiver);
    let (sender, number) = (message.sender, message.number);
    let _ = write!(told, "{ns}:{receiver}:{sender}:{number} ");
}

// Reads a letter.
fn letter(written: &str) -> Letter {
    let (rest, sign) = match written.strip_prefix('-') {
        Some(rest) => (rest, Sign::Minus),
        None => (written.strip_prefix('+').unwrap_or(written), Sign::Plus),
    };
    let (ns, rest) = split_at_colon(rest);
    let (receiver, rest) = split_at_colon(rest);
    let (sender, count) = split_at_colon(rest);
    let message = Message {
        time: moment(number(ns)),
        receiver: receiver.parse().unwrap_or_default(),
        sender: sender.parse().unwrap_or(9),
        number: number(count),
        ..Message::default()
    };
    Letter { message, sign }
}
