//! Answers an order with the fault that it met, if any. Words that are not an order get help, or the reason why they are refused.
ghost use Rattle.std.specs.Prelude.{◌≡◌, ◌≢◌, ◌⊎◌, false, IfErr, IfSome, OnErr, OnOk};
ghost use Rattle.clap.specs.declared.error.kind.ErrorKind.TheVariants as Kind;
ghost use Rattle.commands.specs.declared.fault.Fault.TheVariants.{CannotWrite, OutOfMemory};
ghost use Rattle.commands.specs.Telling.{TellsOne, telling_of};
ghost use Rattle.commands.specs.Ending.{IsFaultOfOutput};
ghost use Rattle.commands.specs.Files.{ShowsBoth, TellsAlone};
ghost use Rattle.commands.specs.Naming.{TellsTwice};
ghost use Rattle.commands.specs.Streams.{IsTold, Says, Shows};
ghost use Rattle.commands.specs.Words.{AsksFor};

use crate::fault::{BAD_WORDS, DONE, Fault};
use crate::host::Host;
use crate::telling;
use crate::telling::{say, tell, tell_twice};
use clap::error::ErrorKind;
use std::alloc::Global;
use std::fmt::Display;
use trace_tables::write_all;

/// Reports lack of memory.
fn tell_memory<H: Host>(host: &mut H) -> u8
    ensures value { result ≡ 5 }
    ensures told { IsTold H.outside host.old host.new result (telling_of OutOfMemory) }
    ensures alone { TellsAlone H.outside host.old host.new }
    ensures output { H.outside.output host.new ≡ H.outside.output host.old }
{
    telling::tell_memory(host.errors())
}

/// Reports a file that the words name twice; if the line finds no memory, it reports that instead. It does nothing else.
pub fn refuse_twice<H: Host>(alloc: Global, path: &str, host: &mut H) -> u8
    ensures status { (result ≡ 2) ⊎ (result ≡ 5) }
    ensures told { TellsTwice path.now (IsTold H.outside host.old host.new result) }
    ensures alone { TellsAlone H.outside host.old host.new }
{
    tell_twice(alloc, path, host.errors())
}

/// Reports a fault, if any.
pub fn tell_outcome<H: Host>(alloc: Global, outcome: Result<(), Fault<'_>>, host: &mut H) -> u8
    ensures status { (result ≡ 0) ⊎ (result ≡ 3) ⊎ (result ≡ 4) ⊎ (result ≡ 5) }
    ensures done { OnOk outcome.entry ((result ≡ 0) × (host.new ≡ host.old)) }
    ensures told { IfErr outcome.entry (λ fault. TellsOne fault (IsTold H.outside host.old host.new result)) }
    ensures alone { OnErr outcome.entry (TellsAlone H.outside host.old host.new) }
    ensures output { H.outside.output host.new ≡ H.outside.output host.old }
{
    match outcome {
        Ok(()) => DONE,
        Err(fault) => tell(alloc, &fault, host.errors()),
    }
}

/// Writes a text to standard output.
fn show<H: Host>(alloc: Global, text: &str, host: &mut H) -> u8
    ensures status { (result ≡ 0) ⊎ (result ≡ 4) ⊎ (result ≡ 5) }
    ensures shown { result ≡ 0 → Shows H.outside host.old host.new text.now }
    ensures failed { result ≢ 0 → IsFaultOfOutput false H.outside.output_failures (H.outside.output host.old) (H.outside.output host.new) CannotWrite }
    ensures told { result ≢ 0 → TellsOne CannotWrite (IsTold H.outside host.old host.new result) }
    ensures both { ShowsBoth H.outside host.old host.new }
{
    match write_all(host.output(), text.as_bytes()) {
        Ok(()) => DONE,
        Err(_) => tell(alloc, &Fault::CannotWrite, host.errors()),
    }
}

/// Writes the help that the words ask for.
fn give_help<M: Display, H: Host>(alloc: Global, help: &M, host: &mut H) -> u8
    ensures status { (result ≡ 0) ⊎ (result ≡ 4) ⊎ (result ≡ 5) }
    ensures shown { result ≡ 0 → IfSome (M.output help.now) (Shows H.outside host.old host.new) }
    ensures failed { result ≡ 4 → IsFaultOfOutput false H.outside.output_failures (H.outside.output host.old) (H.outside.output host.new) CannotWrite }
    ensures cannot_write { result ≡ 4 → TellsOne CannotWrite (IsTold H.outside host.old host.new result) }
    ensures memory { result ≡ 5 → TellsOne OutOfMemory (IsTold H.outside host.old host.new result) }
    ensures both { ShowsBoth H.outside host.old host.new }
{
    match help.to_string(alloc) {
        Ok(text) => show(alloc, text.as_str(), host),
        Err(_) => tell_memory(host),
    }
}

/// Writes why the words are refused. If error output fails, nothing more is written.
fn refuse<M: Display, H: Host>(alloc: Global, why: &M, host: &mut H) -> u8
    ensures status { (result ≡ 2) ⊎ (result ≡ 5) }
    ensures said { result ≡ 2 → IfSome (M.output why.now) (Says H.outside host.old host.new) }
    ensures memory { result ≡ 5 → TellsOne OutOfMemory (IsTold H.outside host.old host.new result) }
    ensures alone { TellsAlone H.outside host.old host.new }
    ensures output { H.outside.output host.new ≡ H.outside.output host.old }
{
    match why.to_string(alloc) {
        Ok(text) => {
            say(text.as_str(), host.errors());
            BAD_WORDS
        }
        Err(_) => tell_memory(host),
    }
}

/// Writes the message of clap for words that are not an order, by its kind: the help that they ask for to standard output, or the reason
/// why they are refused to error output.
pub fn answer<M: Display, H: Host>(alloc: Global, kind: ErrorKind, message: &M, host: &mut H) -> u8
    ensures status { (result ≡ 0) ⊎ (result ≡ 2) ⊎ (result ≡ 4) ⊎ (result ≡ 5) }
    ensures memory { kind ≡ Kind.OutOfMemory → result ≡ 5 }
    ensures told { result ≡ 5 → TellsOne OutOfMemory (IsTold H.outside host.old host.new result) }
    ensures alone { ¬ (AsksFor kind) → TellsAlone H.outside host.old host.new }
    ensures both { ShowsBoth H.outside host.old host.new }
    ensures only_done { result ≡ 0 → AsksFor kind }
    ensures only_shown { result ≡ 4 → AsksFor kind }
    ensures only_mistake { result ≡ 2 → ¬ (AsksFor kind) }
    ensures shown { result ≡ 0 → IfSome (M.output message.now) (Shows H.outside host.old host.new) }
    ensures failed { result ≡ 4 → IsFaultOfOutput false H.outside.output_failures (H.outside.output host.old) (H.outside.output host.new) CannotWrite }
    ensures cannot_write { result ≡ 4 → TellsOne CannotWrite (IsTold H.outside host.old host.new result) }
    ensures said { result ≡ 2 → IfSome (M.output message.now) (Says H.outside host.old host.new) }
{
    match kind {
        ErrorKind::OutOfMemory => tell_memory(host),
        ErrorKind::DisplayHelp | ErrorKind::DisplayVersion => give_help(alloc, message, host),
        _ => refuse(alloc, message, host),
    }
}
