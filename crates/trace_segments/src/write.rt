//! Writes the whole text of a trace into a sink.
ghost use Rattle.std.specs.Prelude.{◌≡◌, ◌≢◌, ◌+◌, OnOk, IfOk, IfErr};
ghost use Rattle.std.specs.List.{flat_map};
ghost use Rattle.std.specs.Io.KnownBytes.{append_known};
ghost use Rattle.trace_segments.specs.declared.fault.OutFault.TheVariants.{Device};
ghost use Rattle.trace_segments.specs.Sinking.{IsBeginning};
ghost use Rattle.trace_segments.specs.Text.{trace_line, trace_text, next_text};

use crate::fault::OutFault;
use crate::line::{empty, text_of};
use crate::sink::{Sink, write_all};
use crate::trace;
use csv::Error;
use network::Network;
use std::alloc::Global;
use vlink::Row;

/// Makes the text of a trace. An error is the library's own.
fn trace_bytes(alloc: Global, network: &Network, rows: &[Row]) -> Result<Vec<u8>, Error>
    ensures { IfOk result (λ bytes. bytes.items ≡ trace_text network.now rows.now) }
{
    let mut out = empty(alloc);
    let put = trace::push_trace(&mut out, network, rows);
    text_of(out, put)
}

/// Makes the lines of these rows alone. An error is the library's own.
fn line_bytes(alloc: Global, network: &Network, rows: &[Row]) -> Result<Vec<u8>, Error>
    ensures { IfOk result (λ bytes. bytes.items ≡ flat_map (trace_line network.now) rows.now) }
{
    let mut out = empty(alloc);
    let put = trace::push_rows(&mut out, network, rows);
    text_of(out, put)
}

/// Makes the lines of these rows, behind the first line of the trace unless that was written. An error is the library's own: only the place
/// that turns it into a fault decides between lack of memory and `Layout`.
pub fn next_bytes(
    alloc: Global,
    network: &Network,
    begun: bool,
    rows: &[Row],
) -> Result<Vec<u8>, Error>
    ensures { IfOk result (λ bytes. bytes.items ≡ next_text network.now begun rows.now) }
{
    if begun {
        line_bytes(alloc, network, rows)
    } else {
        trace_bytes(alloc, network, rows)
    }
}

/// Writes the trace of these rows, in their order, as comma-separated rows, each with a line feed at its end.
///
/// The first line is `time_ns,where,vl,what,value`. Then each row gives `TIME,NAME,VL,delivered,LATENCY` or `TIME,NAME,VL,CAUSE,SIZE`;
/// times and latencies are in ns, sizes in bytes. A row whose virtual link or process the network lacks gives no line. NAME is that of the
/// node, or `from>to` for a line.
///
/// The text is made whole before its first byte is written. `Device` comes only if the sink failed; what was written is a beginning of the
/// text. `OutOfMemory` comes only if memory was refused, and `Layout` only if the library that lays out rows failed otherwise; then nothing
/// was written.
pub fn write_trace<S: Sink>(
    alloc: Global,
    network: &Network,
    rows: &[Row],
    sink: &mut S,
) -> Result<(), OutFault>
    ensures text { OnOk result (S.taken sink.new ≡ append_known (S.taken sink.old) (trace_text network.now rows.now)) }
    ensures went_well { OnOk result (S.failures sink.new ≡ S.failures sink.old) }
    ensures device { IfErr result (λ fault. fault ≡ Device → IsBeginning (S.taken sink.old) (S.taken sink.new) (trace_text network.now rows.now)) }
    ensures failed { IfErr result (λ fault. fault ≡ Device → S.failures sink.new ≡ S.failures sink.old + 1) }
    ensures kept { IfErr result (λ fault. fault ≢ Device → sink.new ≡ sink.old) }
{
    let bytes = trace_bytes(alloc, network, rows)?;
    match write_all(sink, bytes.as_slice()) {
        Ok(()) => Ok(()),
        Err(_) => Err(OutFault::Device),
    }
}
