//! Writes the whole text of the tables into a sink.
ghost use Rattle.std.specs.Prelude.{◌≡◌, ◌≢◌, ◌+◌, OnOk, IfOk, IfErr};
ghost use Rattle.std.specs.Io.KnownBytes.{append_known};
ghost use Rattle.trace_segments.specs.declared.fault.OutFault.TheVariants.{Device};
ghost use Rattle.trace_segments.specs.Words.{Adds, IsBeginning};
ghost use Rattle.trace_tables.specs.Text.{tables_text};

use crate::tables::Tables;
use crate::text;
use csv::{Error, Writer};
use network::Network;
use std::alloc::Global;
use trace_segments::line::{empty, text_of};
use trace_segments::{OutFault, Sink, write_all};

/// Makes the text of the tables of a network. An error is the library's own.
fn csv_text(alloc: Global, network: &Network, tables: &Tables) -> Result<Vec<u8>, Error>
    ensures { IfOk result (λ bytes. bytes.items ≡ tables_text network.now tables.now) }
{
    let mut out = empty(alloc);
    let put = push_tables(&mut out, network, tables);
    text_of(out, put)
}

/// Makes the lines of the tables of a network. An error is the library's own.
fn push_tables(out: &mut Writer<Vec<u8>>, network: &Network, tables: &Tables) -> Result<(), Error>
    ensures { OnOk result (Adds out.old out.new (tables_text network.now tables.now)) }
{
    text::push_head(out)?;
    text::push_latencies(out, network, tables.latencies())?;
    text::push_drops(out, network, tables.drops())
}

/// Writes the tables of a network as comma-separated rows, each with a line feed at its end.
///
/// The first line is `table,vl,where,cause,count,least_ns,greatest_ns,sum_ns`. Then each virtual link and each of its destinations, by
/// number, gives `latency,VL,NAME,,COUNT,LEAST,GREATEST,SUM`, also if the count is 0. Then each virtual link, process and cause with a
/// count above 0, by number and in the order of the causes, gives `dropped,VL,NAME,CAUSE,COUNT,,,`. Latencies are in ns. NAME is that of
/// the node, or `from>to` for a line.
///
/// The tables may be those of another network. Numbers identify the lines: what this network lacks gives no line, and what the tables lack
/// counts as 0.
///
/// The text is made whole before its first byte is written. `Device` comes only if the sink failed; what was written is a beginning of the
/// text. `OutOfMemory` comes only if memory was refused, and `Layout` only if the library that lays out rows failed otherwise; then nothing
/// was written.
pub fn write_csv<S: Sink>(
    alloc: Global,
    network: &Network,
    tables: &Tables,
    sink: &mut S,
) -> Result<(), OutFault>
    ensures text { OnOk result (S.taken sink.new ≡ append_known (S.taken sink.old) (tables_text network.now tables.now)) }
    ensures went_well { OnOk result (S.failures sink.new ≡ S.failures sink.old) }
    ensures device { IfErr result (λ fault. fault ≡ Device → IsBeginning (S.taken sink.old) (S.taken sink.new) (tables_text network.now tables.now)) }
    ensures failed { IfErr result (λ fault. fault ≡ Device → S.failures sink.new ≡ S.failures sink.old + 1) }
    ensures kept { IfErr result (λ fault. fault ≢ Device → sink.new ≡ sink.old) }
{
    let bytes = csv_text(alloc, network, tables)?;
    match write_all(sink, bytes.as_slice()) {
        Ok(()) => Ok(()),
        Err(_) => Err(OutFault::Device),
    }
}
