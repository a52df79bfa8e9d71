//! Appends the line of a step to a text.
ghost use Rattle.std.specs.Prelude.{◌≡◌, ◌∷◌, ◌++◌, ◌+◌, ◌≤◌, OnOk, IsOk, vec_len, vec_capacity};
ghost use Rattle.journal_text.specs.declared.line_writing.TheConstants.{LONGEST_LINE};
ghost use Rattle.journal_text.specs.Text.{number_then, step_line};

use itoa::Buffer;
use std::alloc::AllocError;
use vlink::Step;

/// The most bytes of the line of a step: a letter, two numbers of ten digits, each behind a blank, and a line feed.
pub const LONGEST_LINE: usize = 24;

/// Appends a number and the byte that ends it to a text.
fn push_number(text: &mut Vec<u8>, number: u32, end: u8) -> Result<(), AllocError>
    ensures number { OnOk result (text.new.items ≡ text.old.items ++ number_then end number) }
    ensures len { OnOk result (vec_len text.new ≤ vec_len text.old + 11) }
    ensures capacity { vec_capacity text.old ≤ vec_capacity text.new }
    ensures room { vec_len text.old + 11 ≤ vec_capacity text.old → IsOk result }
{
    let mut buffer = Buffer::new();
    text.extend_from_slice(buffer.format(number).as_bytes())?;
    text.extend_from_slice(&[end])
}

/// Appends a letter, a blank, a process and a line feed to a text.
fn push_process(text: &mut Vec<u8>, letter: u8, process: u32) -> Result<(), AllocError>
    ensures line { OnOk result (text.new.items ≡ text.old.items ++ letter ∷ 32 ∷ number_then 10 process) }
    ensures len { OnOk result (vec_len text.new ≤ vec_len text.old + 13) }
    ensures capacity { vec_capacity text.old ≤ vec_capacity text.new }
    ensures room { vec_len text.old + 13 ≤ vec_capacity text.old → IsOk result }
{
    text.extend_from_slice(&[letter, b' '])?;
    push_number(text, process, b'\n')
}

/// Appends `T`, a process, a place in its mail and a line feed to a text, with a blank before each number.
fn push_take(text: &mut Vec<u8>, process: u32, place: u32) -> Result<(), AllocError>
    ensures line { OnOk result (text.new.items ≡ text.old.items ++ 84 ∷ 32 ∷ (number_then 32 process ++ number_then 10 place)) }
    ensures len { OnOk result (vec_len text.new ≤ vec_len text.old + 24) }
    ensures capacity { vec_capacity text.old ≤ vec_capacity text.new }
    ensures room { vec_len text.old + 24 ≤ vec_capacity text.old → IsOk result }
{
    text.extend_from_slice(b"T ")?;
    push_number(text, process, b' ')?;
    push_number(text, place, b'\n')
}

/// Appends the line of a step to a text. If the text has room for `LONGEST_LINE` more bytes, it takes no memory. If memory is refused, a
/// beginning of the line may have been appended.
pub fn push_step(text: &mut Vec<u8>, step: Step) -> Result<(), AllocError>
    ensures line { OnOk result (text.new.items ≡ text.old.items ++ step_line step) }
    ensures len { OnOk result (vec_len text.new ≤ vec_len text.old + LONGEST_LINE) }
    ensures capacity { vec_capacity text.old ≤ vec_capacity text.new }
    ensures room { vec_len text.old + LONGEST_LINE ≤ vec_capacity text.old → IsOk result }
{
    match step {
        Step::Take { process, place } => push_take(text, process, place),
        Step::Arrive { process } => push_process(text, b'A', process),
        Step::Run { process } => push_process(text, b'R', process),
        Step::Post { process } => push_process(text, b'P', process),
        Step::Gvt => text.extend_from_slice(b"G\n"),
        Step::Commit { process } => push_process(text, b'C', process),
    }
}
