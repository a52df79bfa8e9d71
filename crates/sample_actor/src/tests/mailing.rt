//! The words for mail and floors. A word that names a process that does not exist does nothing.
use super::asking::tell_letter;
use super::player::{letter, moment, number, split_at_colon, tell, two_numbers};
use crate::Summing;
use antimessages::{Mail, OutOfMemory, Outbox};
use gvt::Floors;
use process_queues::{ProcFault, Process};
use std::alloc::Global;
use vlink::Letter;

fn process_of(number: u64) -> u16 {
    u16::try_from(number).unwrap_or(u16::MAX)
}

// Posts the outbox, or makes room for it.
pub(crate) fn post(
    process: &mut Process<Summing>,
    mail: &mut Mail,
    call: &str,
) -> Result<(), ProcFault> {
    if !process.goes_within(usize::from(mail.processes())) {
        return Ok(());
    }
    if call == "post" {
        process.post(mail)
    } else {
        process.reserve_post(mail)
    }
}

// Posts a letter of another process, in room made before: its receiver, and its text.
pub(crate) fn send(alloc: Global, mail: &mut Mail, rest: &str) -> Result<(), ProcFault> {
    let (receiver, written) = split_at_colon(rest);
    let mut letter = letter(written);
    letter.message.receiver = process_of(number(receiver));
    let mut outbox = Outbox::new(alloc);
    let posted = post_letter(mail, &mut outbox, letter);
    drop(outbox);
    Ok(posted?)
}

fn post_letter(mail: &mut Mail, outbox: &mut Outbox, letter: Letter) -> Result<(), OutOfMemory> {
    outbox.push(letter)?;
    if !outbox.goes_within(usize::from(mail.processes())) {
        return Ok(());
    }
    mail.reserve(outbox)?;
    mail.post(outbox)
}

pub(crate) fn take(mail: &mut Mail, told: &mut String, rest: &str) {
    let (receiver, place) = two_numbers(rest);
    match mail.take(process_of(receiver), place as usize) {
        Some(letter) => tell_letter(&letter, told),
        None => tell(told, "none "),
    }
}

// Sets a floor, or lowers it.
pub(crate) fn put(floors: &mut Floors, call: &str, rest: &str) {
    let (process, ns) = two_numbers(rest);
    let process = process_of(process);
    if process >= floors.processes() {
        return;
    }
    if call == "set" {
        floors.set(process, moment(ns));
    } else {
        floors.lower(process, moment(ns));
    }
}
