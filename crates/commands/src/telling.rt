//! Reports a fault on one line of error output.
ghost use Rattle.std.specs.Prelude.{◌≡◌, ◌≤◌, ◌⊎◌, ◌++◌, [], codes, decimal, OnOk, IfOk, string_bytes};
ghost use Rattle.std.specs.Option.{option_map_or};
ghost use Rattle.commands.specs.Telling.{place_text, place_of, fault_name, description_text, fault_text, told_line, telling_of, telling_of_no_text, telling_of_twice, TellsOne};
ghost use Rattle.commands.specs.Ending.{Took, Told};
ghost use Rattle.commands.specs.Naming.{TellsTwice};
ghost use Rattle.commands.specs.declared.fault.Fault.TheVariants.{OutOfMemory};

use crate::fault::{BAD_WORDS, Fault};
use netdesc::{DescFault, Place};
use std::alloc::{AllocError, Global};
use trace_tables::{Sink, write_all};

/// Returns the place of a fault of a description, if it has one.
fn place_of(fault: &DescFault) -> Option<Place>
    ensures { result ≡ place_of fault.now }
{
    match *fault {
        DescFault::Syntax | DescFault::OutOfMemory => None,
        DescFault::Missing(place)
        | DescFault::WrongKind(place)
        | DescFault::OutOfLimit(place)
        | DescFault::UnknownName(place)
        | DescFault::DoubleName(place)
        | DescFault::NotALink(place)
        | DescFault::NotATree(place)
        | DescFault::TooMany(place) => Some(place),
    }
}

/// Returns the text of a fault of a description before its place.
fn fault_name(fault: &DescFault) -> &'static str
    ensures { result.now ≡ fault_name fault.now }
{
    match fault {
        DescFault::Syntax => "description: 1 Syntax",
        DescFault::Missing(_) => "description: 2 Missing",
        DescFault::WrongKind(_) => "description: 3 WrongKind",
        DescFault::OutOfLimit(_) => "description: 4 OutOfLimit",
        DescFault::UnknownName(_) => "description: 5 UnknownName",
        DescFault::DoubleName(_) => "description: 6 DoubleName",
        DescFault::NotALink(_) => "description: 7 NotALink",
        DescFault::NotATree(_) => "description: 8 NotATree",
        DescFault::TooMany(_) => "description: 9 TooMany",
        DescFault::OutOfMemory => "out of memory",
    }
}

/// Appends the section, the row and the key, with one blank between.
fn push_place(text: &mut String, place: &Place) -> Result<(), AllocError>
    ensures { OnOk result (string_bytes text.new ≡ string_bytes text.old ++ place_text place.now) }
{
    text.push_str(place.section.text())?;
    if let Some(row) = place.row {
        write!(text, " {row}")?;
    }
    if let Some(key) = place.key {
        text.push_str(" ")?;
        text.push_str(key.text())?;
    }
    Ok(())
}

/// Appends a fault of a description, with its place.
fn push_description(text: &mut String, fault: &DescFault) -> Result<(), AllocError>
    ensures { OnOk result (string_bytes text.new ≡ string_bytes text.old ++ description_text fault.now) }
{
    text.push_str(fault_name(fault))?;
    if let Some(place) = place_of(fault) {
        text.push_str(" at ")?;
        push_place(text, &place)?;
    }
    Ok(())
}

/// Appends two texts, one behind the other.
fn push_both(text: &mut String, first: &str, second: &str) -> Result<(), AllocError>
    ensures { OnOk result (string_bytes text.new ≡ string_bytes text.old ++ (first.now ++ second.now)) }
{
    text.push_str(first)?;
    text.push_str(second)
}

/// Appends a fault.
fn push_fault(text: &mut String, fault: &Fault<'_>) -> Result<(), AllocError>
    ensures { OnOk result (string_bytes text.new ≡ string_bytes text.old ++ fault_text fault.now) }
{
    match fault {
        Fault::Description(fault) => push_description(text, fault),
        Fault::JournalLine(line) => write!(text, "journal line {line}"),
        Fault::JournalFull => text.push_str("journal full"),
        Fault::CannotRead(path) => push_both(text, "cannot read ", path),
        Fault::CannotWriteFile(path) => push_both(text, "cannot write ", path),
        Fault::CannotWrite => text.push_str("cannot write"),
        Fault::Layout => text.push_str("cannot lay out rows"),
        Fault::OutOfMemory => text.push_str("out of memory"),
        Fault::Exhausted => text.push_str("numbers used up"),
        Fault::Spawn => text.push_str("cannot start a worker"),
        Fault::Torn => text.push_str("torn"),
    }
}

/// Makes the line that reports a fault.
fn line_of(alloc: Global, fault: &Fault<'_>) -> Result<String, AllocError>
    ensures { IfOk result (λ line. string_bytes line ≡ told_line (fault_text fault.now)) }
{
    let mut line = String::from_str(alloc, "afdxsim: ")?;
    push_fault(&mut line, fault)?;
    line.push_str("\n")?;
    Ok(line)
}

/// Returns the line that reports lack of memory.
fn want_of_memory() -> &'static str
    ensures { result.now ≡ told_line (fault_text OutOfMemory) }
{
    "afdxsim: out of memory\n"
}

/// Writes a line to error output. If that fails, nothing more is written.
pub fn say<E: Sink>(line: &str, errors: &mut E)
    ensures took { E.failures errors.new ≡ E.failures errors.old → Took E.taken errors.old errors.new line.now }
    ensures failed { E.failures errors.old ≤ E.failures errors.new }
{
    let _said = write_all(errors, line.as_bytes());
}

/// Makes the line that reports a file that the words name twice.
fn twice_line(alloc: Global, path: &str) -> Result<String, AllocError>
    ensures { IfOk result (λ line. string_bytes line ≡ (telling_of_twice path.now).line) }
{
    let mut line = String::from_str(alloc, "afdxsim: ")?;
    push_both(&mut line, "named twice: ", path)?;
    line.push_str("\n")?;
    Ok(line)
}

/// Reports lack of memory. Takes no memory.
pub fn tell_memory<E: Sink>(errors: &mut E) -> u8
    ensures { Told E.taken E.failures errors.old errors.new result (telling_of OutOfMemory) }
{
    say(want_of_memory(), errors);
    Fault::OutOfMemory.status()
}

/// Reports a file that the words name twice; if the line finds no memory, it reports that instead.
pub fn tell_twice<E: Sink>(alloc: Global, path: &str, errors: &mut E) -> u8
    ensures told { TellsTwice path.now (Told E.taken E.failures errors.old errors.new result) }
    ensures known { (result ≡ 2) ⊎ (result ≡ 5) }
{
    match twice_line(alloc, path) {
        Ok(line) => {
            say(line.as_str(), errors);
            BAD_WORDS
        }
        Err(_) => tell_memory(errors),
    }
}

/// Reports a word that is not UTF-8. Takes no memory.
pub fn tell_no_text<E: Sink>(errors: &mut E) -> u8
    ensures { Told E.taken E.failures errors.old errors.new result telling_of_no_text }
{
    say("afdxsim: a word is not UTF-8\n", errors);
    BAD_WORDS
}

/// Reports a fault on error output, by one line, and returns the status with which the program ends. If the line itself finds no memory, it
/// reports that instead of the fault. If error output fails, nothing more is written.
pub fn tell<E: Sink>(alloc: Global, fault: &Fault<'_>, errors: &mut E) -> u8
    ensures told { TellsOne fault.now (Told E.taken E.failures errors.old errors.new result) }
    ensures known { (result ≡ 3) ⊎ (result ≡ 4) ⊎ (result ≡ 5) }
{
    match line_of(alloc, fault) {
        Ok(line) => {
            say(line.as_str(), errors);
            fault.status()
        }
        Err(_) => tell_memory(errors),
    }
}
