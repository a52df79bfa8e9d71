//! Rows of the order of messages.
use crate::tests::messages::message;
use crate::tests::words::tell;
use std::cmp::Ordering;
use vlink::{Message, compare};

// Messages; and for each message how it compares with the one before it, and how that one compares with it. The first one is compared with
// `free@0:0`.
pub const ROWS: &str = "\
order, offer@0:0.64 offer@0:0.64.1 offer@0:0.65 release@0:0 free@0:0 0.0.1/free@0:0 0.1.0/free@0:0 1.0.0/free@0:0 free@1:0 => >< <> <> <> <> <> <> <> <>
order, free@0:0 arrive@0:0:0.64 enqueue@0:0:0.64 carry@0:0.64 => == <> <> <>
order, carry@0:0.64 carry@0:0.64.0.1 carry@0:0.64.0.0.0.1 carry@0:0.64.0.0.1 carry@0:0.65 carry@0:0.64.1 carry@0:1.64 => <> <> <> <> <> <> <>
order, free@0:0 free@0:0 => == ==";

// Writes how the messages compare, one after another.
pub fn tell_order(words: &str, told: &mut String) {
    let mut last = Message::default();
    for word in words.split_whitespace() {
        let next = message(word);
        tell(told, sign(&last, &next));
        tell(told, sign(&next, &last));
        tell(told, " ");
        last = next;
    }
}

fn sign(first: &Message, second: &Message) -> &'static str {
    match compare(first, second) {
        Ordering::Less => "<",
        Ordering::Equal => "=",
        Ordering::Greater => ">",
    }
}
