//! How rows write numbers and rows. A text that finds no room is left out, and then the row is wrong.
use std::fmt::Write;
use vlink::{FrameSize, Time};

// Reads the number at this place of a text, from 0; a mark or a blank stands between two numbers. If it is missing or not a number, returns
// 0.
pub fn number_at(text: &str, place: usize) -> u64 {
    let digits = text.split(['.', ':', '/', '@', ' ']).nth(place);
    digits.unwrap_or("").parse().unwrap_or(0)
}

pub fn byte_at(text: &str, place: usize) -> u8 {
    (number_at(text, place) & 0xff) as u8
}

pub fn short_at(text: &str, place: usize) -> u16 {
    (number_at(text, place) & 0xffff) as u16
}

pub fn long_at(text: &str, place: usize) -> u32 {
    (number_at(text, place) & 0xffff_ffff) as u32
}

pub fn moment_at(text: &str, place: usize) -> Time {
    Time::new(number_at(text, place)).unwrap_or_default()
}

pub fn size_at(text: &str, place: usize) -> FrameSize {
    FrameSize::new(short_at(text, place)).unwrap_or_default()
}

pub fn tell(told: &mut String, text: &str) {
    let _ = told.push_str(text);
}

pub fn tell_number(told: &mut String, number: u64) {
    let _ = write!(told, "{number}");
}

// Writes numbers with a mark between two of them.
pub fn tell_numbers(told: &mut String, numbers: &[u64]) {
    let mut mark = "";
    for number in numbers {
        tell(told, mark);
        tell_number(told, *number);
        mark = ".";
    }
}
