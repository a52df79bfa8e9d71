//! Rows of data: scripts that show what elements, messages and nodes do; how many bytes the values take that exist in great number; and
//! results of calls that the program does not show: on the exchange of a network, what a replay leaves, and segments of a trace.
//!
//! A row does not release what it held (`forget`): the crates of these types prove that it can, and a second proof here would take long.
mod accounts;
mod checks;
mod elements;
mod exchanges;
mod group_stage;
mod groups;
mod messages;
mod networks;
mod node_rows;
mod order;
mod playing;
mod ports;
mod receivers;
mod regulators;
mod segments;
mod stage;
mod words;
mod worlds;

use bag_regulator::RegRecord;
use netdesc::read;
use network::Network;
use networks::text_of;
use nodes::NodeRecord;
use output_port::PutRecord;
use std::alloc::Global;
use std::mem::{forget, size_of};
use vlink::{Letter, Message, Step};
use words::{number_at, short_at, tell};

#[test]
fn rows_tell_what_they_say(rt: HostRuntime) {
    assert!(rt; are_small());
    let mut refused = with_room(rt.alloc());
    let mut wrong = with_room(rt.alloc());
    try_rows(rt.alloc(), elements::ROWS, &mut refused, &mut wrong);
    try_rows(rt.alloc(), node_rows::ROWS, &mut refused, &mut wrong);
    try_rows(rt.alloc(), order::ROWS, &mut refused, &mut wrong);
    try_rows(rt.alloc(), worlds::ROWS, &mut refused, &mut wrong);
    try_rows(rt.alloc(), segments::ROWS, &mut refused, &mut wrong);
    assert!(rt; wrong.is_empty(), "{wrong}");
}

// `tools/gate/refuse_memory.py` refuses each of its requests for memory in turn, and counts the lines that it writes.
#[test]
fn an_exchange_does_what_scripts_say(rt: HostRuntime) {
    let mut refused = with_room(rt.alloc());
    let mut wrong = with_room(rt.alloc());
    try_rows(rt.alloc(), exchanges::ROWS, &mut refused, &mut wrong);
    try_rows(rt.alloc(), groups::ROWS, &mut refused, &mut wrong);
    let _ = eprint!(rt; "{refused}");
    assert!(rt; wrong.is_empty(), "{wrong}");
}

// Whether the values that exist in great number are small enough.
fn are_small() -> bool {
    size_of::<Message>() <= 56
        && size_of::<Letter>() <= 64
        && size_of::<Step>() <= 12
        && size_of::<RegRecord>() <= 56
        && size_of::<PutRecord>() <= 2
        && size_of::<NodeRecord>() <= 72
}

fn try_rows(alloc: Global, rows: &str, refused: &mut String, wrong: &mut String) {
    for row in rows.lines() {
        try_row(alloc, row, refused, wrong);
    }
}

// A row writes what stands behind its last arrow, or it is wrong. What could not be made for lack of memory is tried once more.
fn try_row(alloc: Global, row: &str, refused: &mut String, wrong: &mut String) {
    let (given, wanted) = row.rsplit_once(" => ").unwrap_or((row, "a row"));
    let mut told = with_room(alloc);
    tell_row(alloc, given, &mut told, refused);
    if told.as_str().contains("no memory") {
        told.clear();
        tell_row(alloc, given, &mut told, refused);
    }
    if told.as_str().trim() != wanted {
        tell(wrong, row);
        tell(wrong, " but ");
        tell(wrong, told.as_str());
        tell(wrong, "\n");
    }
}

// Makes room for all that rows write, also if it is refused once.
fn with_room(alloc: Global) -> String {
    let mut told = String::new(alloc);
    let _ = told.reserve(4096);
    let _ = told.reserve(4096);
    told
}

// Writes the results of a row: its kind and its start stand in front, and behind a comma what is done. Calls that are refused memory are
// stored.
fn tell_row(alloc: Global, row: &str, told: &mut String, refused: &mut String) {
    let (head, script) = row.split_once(',').unwrap_or((row, ""));
    let (kind, begin) = head.split_once(' ').unwrap_or((head, ""));
    match kind {
        "order" => order::tell_order(script, told),
        "world" => worlds::tell_world(alloc, begin, script, told),
        "journal" => worlds::tell_read(alloc, begin, script, told),
        "width" => segments::tell_width(script, told),
        "gather" => segments::tell_gathered(alloc, script, told),
        "node" | "offers" | "segments" | "exchange" | "groups" => {
            tell_of_network(alloc, kind, begin, script, told, refused);
        }
        _ => elements::tell_element(alloc, kind, begin, script, told),
    }
}

// Writes the results for the network whose name stands in front. To return a network would take as long to prove as three functions.
fn tell_of_network(
    alloc: Global,
    kind: &str,
    begin: &str,
    script: &str,
    told: &mut String,
    refused: &mut String,
) {
    let (name, _) = begin.split_once(' ').unwrap_or((begin, ""));
    if let Ok(text) = text_of(alloc, name) {
        match read(alloc, text.as_str()) {
            Ok(network) => {
                tell_on(alloc, &network, kind, begin, script, told, refused);
                forget(network);
            }
            Err(_) => tell(told, "no memory"),
        }
    } else {
        tell(told, "no memory");
    }
}

// Behind the name of the network stands the number of a process, or how many steps a journal can have and how many groups the network has.
fn tell_on(
    alloc: Global,
    network: &Network,
    kind: &str,
    begin: &str,
    script: &str,
    told: &mut String,
    refused: &mut String,
) {
    match kind {
        "node" => node_rows::tell_node(alloc, network, short_at(begin, 1), script, told),
        "offers" => node_rows::tell_offers(alloc, network, told),
        "segments" => segments::tell_segments(alloc, network, short_at(begin, 1), script, told),
        "groups" => {
            let (limit, groups) = (number_at(begin, 1), short_at(begin, 2));
            groups::tell_groups(alloc, network, limit, groups, script, told, refused);
        }
        _ => exchanges::tell_exchange(alloc, network, number_at(begin, 1), script, told, refused),
    }
}
