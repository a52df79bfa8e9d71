//! Writes a text into a file: creates the file, writes the text, and gives the file back.
ghost use Rattle.std.specs.Prelude.{◌≡◌, ◌≢◌, ◌+◌, [], true, IfErr, IfOk, IfSome, OnOk};
ghost use Rattle.trace_segments.specs.declared.fault.OutFault.TheVariants as out;
ghost use Rattle.trace_segments.specs.Words.{IsBeginning};
ghost use Rattle.commands.specs.Ending.{Took, fault_of_file, fault_of_trace};
ghost use Rattle.commands.specs.Files.{IsFaultOfMake, LacksFile, WritesFile, has_rows, text_of};
ghost use Rattle.commands.specs.Streams.{IsQuiet};

use crate::fault::Fault;
use crate::host::{FileFault, Host};
use crate::steps::write_steps;
use network::Network;
use std::alloc::Global;
use trace_tables::{OutFault, SegmentFault, Sink, TraceFault, write_trace};
use vlink::{Row, Step};

/// What a run writes into a file: the rows of its trace, or the steps of its journal.
#[derive(Clone, Copy)]
pub enum Kept<'a> {
    Trace(&'a Network, &'a [Row]),
    Journal(&'a [Step]),
}

/// Returns why a text was not written into the file with this path, as a fault of the program.
pub fn fault_of_file<'a>(path: &'a str, why: OutFault) -> Fault<'a>
    ensures { result ≡ fault_of_file path.entry why }
{
    match why {
        OutFault::Device => Fault::CannotWriteFile(path),
        OutFault::OutOfMemory => Fault::OutOfMemory,
        OutFault::Layout => Fault::Layout,
    }
}

/// Returns why a trace was not written into the file with this path, as a fault of the program.
pub fn fault_of_trace<'a>(path: &'a str, why: TraceFault) -> Fault<'a>
    ensures { result ≡ fault_of_trace path.entry why }
{
    match why {
        TraceFault::Segment(SegmentFault::OutOfMemory) => Fault::OutOfMemory,
        TraceFault::Segment(_) => Fault::Torn,
        TraceFault::Out(why) => fault_of_file(path, why),
    }
}

/// Creates an empty file with this path.
pub fn make_file<'a, H: Host>(path: &'a str, host: &mut H) -> Result<H::File, Fault<'a>>
    ensures empty { IfOk result (λ file. IfSome (H.outside.wrote file) (λ bytes. bytes ≡ [])) }
    ensures fresh { IfOk result (λ file. H.outside.file_failures file ≡ 0) }
    ensures host { OnOk result (host.new ≡ H.outside.made host.old path.entry.now) }
    ensures made { OnOk result (H.outside.makes host.old path.entry.now true) }
    ensures fault { IfErr result (IsFaultOfMake H.outside path.entry host.old host.new) }
    ensures output { H.outside.output host.new ≡ H.outside.output host.old }
    ensures quiet { IsQuiet H.outside host.old host.new }
{
    match host.make(path) {
        Ok(file) => Ok(file),
        Err(FileFault::Device) => Err(Fault::CannotWriteFile(path)),
        Err(FileFault::OutOfMemory) => Err(Fault::OutOfMemory),
    }
}

/// Writes what a run leaves.
fn write<F: Sink>(alloc: Global, kept: Kept<'_>, file: &mut F) -> Result<(), OutFault>
    ensures text { OnOk result (Took F.taken file.old file.new (text_of kept.entry)) }
    ensures device { IfErr result (λ why. why ≡ out.Device → IsBeginning (F.taken file.old) (F.taken file.new) (text_of kept.entry)) }
    ensures failed { IfErr result (λ why. why ≡ out.Device → F.failures file.new ≡ F.failures file.old + 1) }
    ensures layout { IfErr result (λ why. why ≡ out.Layout → has_rows kept.entry ≡ true) }
    ensures kept { IfErr result (λ why. why ≢ out.Device → file.new ≡ file.old) }
{
    match kept {
        Kept::Trace(network, rows) => write_trace(alloc, network, rows, file),
        Kept::Journal(steps) => write_steps(alloc, steps, file),
    }
}

/// Creates the file with this path and writes what a run leaves into it. If that fails, the file is given back with what it took.
pub fn keep<'a, H: Host>(
    alloc: Global,
    kept: Kept<'_>,
    path: &'a str,
    host: &mut H,
) -> Result<(), Fault<'a>>
    ensures file { OnOk result (WritesFile H.outside path.entry.now (λ text. text ≡ text_of kept.entry) host.old host.new) }
    ensures fault { IfErr result (LacksFile H.outside (has_rows kept.entry) path.entry.now (λ text. text ≡ text_of kept.entry) host.old host.new) }
    ensures output { H.outside.output host.new ≡ H.outside.output host.old }
    ensures quiet { IsQuiet H.outside host.old host.new }
{
    let mut file = make_file(path, host)?;
    let written = write(alloc, kept, &mut file);
    host.close(path, file);
    match written {
        Ok(()) => Ok(()),
        Err(why) => Err(fault_of_file(path, why)),
    }
}
