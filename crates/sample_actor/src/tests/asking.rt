//! The words of a script that look at a process, and those whose answer is a number or none.
use super::player::{letter, moment, tell, tell_answer, two_numbers};
use crate::Summing;
use process_queues::{ProcFault, Process};
use std::fmt::Write;
use vlink::{Letter, Message, Sign};

// Writes the answer of the call.
pub(crate) fn tell_asked(
    process: &mut Process<Summing>,
    told: &mut String,
    call: &str,
    rest: &str,
) -> Result<(), ProcFault> {
    tell_answer(told, ask(process, call, rest)?);
    Ok(())
}

// Returns the answer of the call.
fn ask(process: &mut Process<Summing>, call: &str, rest: &str) -> Result<Option<u64>, ProcFault> {
    match call {
        "run" => time_of(process.run()),
        "seal" => sealed(process.seal_oldest()),
        "commit" => commit(process, rest),
        _ => process.arrive(),
    }
}

// Returns the moment of the message that is returned, if one is.
fn time_of(answer: Result<Option<Message>, ProcFault>) -> Result<Option<u64>, ProcFault> {
    match answer {
        Ok(Some(message)) => Ok(Some(message.time.ns())),
        Ok(None) => Ok(None),
        Err(fault) => Err(fault),
    }
}

fn sealed(answer: Result<bool, ProcFault>) -> Result<Option<u64>, ProcFault> {
    match answer {
        Ok(done) => Ok(Some(u64::from(done))),
        Err(fault) => Err(fault),
    }
}

fn commit(process: &mut Process<Summing>, rest: &str) -> Result<Option<u64>, ProcFault> {
    let (gvt, most) = two_numbers(rest);
    match fossil::commit(process, moment(gvt), most) {
        Ok(count) => Ok(Some(count)),
        Err(_) => Err(ProcFault::OutOfMemory),
    }
}

// Writes the answer of a call that changes nothing.
pub(crate) fn look(process: &Process<Summing>, told: &mut String, call: &str, rest: &str) {
    match call {
        "outbox" => tell_letters(process.outbox(), told),
        "next" => tell_next(process.next(), told),
        "count" => {
            let _ = write!(told, "{} ", process.count(&letter(rest).message));
        }
        _ => tell_answer(told, number_of(process, call, rest)),
    }
}

fn number_of(process: &Process<Summing>, call: &str, rest: &str) -> Option<u64> {
    match call {
        "oldest" => Some(process.oldest()?.ns()),
        "floor" => Some(process.floor().ns()),
        "tray" => Some(process.tray_len() as u64),
        "committed" => Some(process.committed()),
        "rows" => Some(process.sealed().len() as u64),
        "committable" => Some(committable(process, rest) as u64),
        _ => None,
    }
}

fn committable(process: &Process<Summing>, rest: &str) -> usize {
    let (gvt, most) = two_numbers(rest);
    process.committable(moment(gvt), most as usize)
}

// Writes the next message: its moment and its sender.
fn tell_next(next: Option<Message>, told: &mut String) {
    if let Some(message) = next {
        let _ = write!(told, "{}@{} ", message.time.ns(), message.sender);
    } else {
        tell(told, "none ");
    }
}

fn tell_letters(letters: &[Letter], told: &mut String) {
    for letter in letters {
        tell_letter(letter, told);
    }
}

// Writes the letter: its sign, its moment and its number.
pub(crate) fn tell_letter(letter: &Letter, told: &mut String) {
    tell(told, if letter.sign == Sign::Plus { "+" } else { "-" });
    let (ns, number) = (letter.message.time.ns(), letter.message.number);
    let _ = write!(told, "{ns}.{number} ");
}
