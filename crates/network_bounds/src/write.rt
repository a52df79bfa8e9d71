//! Writes the bounds of a network as a whole text into a sink.
ghost use Rattle.std.specs.Prelude.{◌≡◌, ◌≢◌, ◌+◌, ◌<◌, ℕ, List, length, OnOk, IfOk, IfErr};
ghost use Rattle.std.specs.Io.KnownBytes.{append_known};
ghost use Rattle.trace_segments.specs.declared.fault.OutFault.TheVariants.{Device};
ghost use Rattle.trace_segments.specs.Words.{Adds, IsBeginning};
ghost use Rattle.network.specs.Words.{IsLinkInLimits, lines_of};
ghost use Rattle.network_bounds.specs.Delays.{AreBounds};
ghost use Rattle.network_bounds.specs.Least.{span_of};
ghost use Rattle.network_bounds.specs.Sizes.{AreLeast, sizes_by, sizes_in};
ghost use Rattle.network_bounds.specs.Text.{IsBoundsText, bounds_text, destination_text, destinations_text, links_text, port_text, ports_text};

use crate::ages::{Span, ages_to};
use crate::delays::PortBound;
use crate::port::Port;
use crate::reason::Reason;
use crate::sizes::{LinkSizes, Senders, all_sizes, least_at};
use crate::text;
use crate::waits::wait_ns;
use csv::{Error, Writer};
use network::{Network, VirtualLink};
use std::alloc::{AllocError, Global};
use trace_segments::line::{empty, text_of};
use trace_segments::{OutFault, Sink, write_all};
use vlink::FrameSize;

/// Returns the bounds of the port before each line, where the frames of each virtual link have these sizes.
fn bounds_of(
    alloc: Global,
    network: &Network,
    known: &[LinkSizes],
) -> Result<Vec<PortBound>, AllocError>
    ensures { IfOk result (λ bounds. AreBounds (sizes_by network.now known.now) network.now (lines_of network.now) bounds.items) }
{
    let mut bounds = Vec::new(alloc);
    for line in 0..network.line_count() {
        let port = Port::new(alloc, network, known, line)?;
        bounds.push(PortBound::of(&port))?;
    }
    Ok(bounds)
}

/// Returns how long a frame takes from its release to a destination at most and at least, in ns, or why that has no bound: a switch passes no frame
/// that is longer than Smax. 128 bits hold the sum with the wait in the regulator.
fn span_of(
    network: &Network,
    bounds: &[PortBound],
    link: &VirtualLink,
    least: FrameSize,
    node: usize,
) -> Result<Span, Reason>
    requires limits { IsLinkInLimits link.now }
    requires node { node < length network.now.nodes }
    requires size { least ≡ (sizes_in network.now link.now).least }
    ensures { result ≡ span_of network.now bounds.now link.now node }
{
    if link.smax.bytes() < least.bytes() {
        return Err(Reason::Size);
    }
    let span = ages_to(network, bounds, link, least, node)?;
    let bound = span.most.saturating_add(u128::from(wait_ns(network, link)));
    if bound < u128::MAX {
        Ok(span)
    } else {
        Err(Reason::Number)
    }
}

/// Appends the bound of a virtual link at a destination, or why it has none.
fn push_destination(
    out: &mut Writer<Vec<u8>>,
    network: &Network,
    bounds: &[PortBound],
    link: &VirtualLink,
    least: FrameSize,
    node: usize,
) -> Result<(), Error>
    requires limits { IsLinkInLimits link.now }
    requires size { least ≡ (sizes_in network.now link.now).least }
    ensures { OnOk result (Adds out.old out.new (destination_text network.now bounds.now link.now node)) }
{
    if node >= network.node_count() {
        return Ok(());
    }
    match span_of(network, bounds, link, least, node) {
        Ok(span) => text::push_bound(out, network, link, node, span),
        Err(reason) => text::push_no_bound(out, network, link, node, reason),
    }
}

/// Appends the bounds of a virtual link at these destinations.
fn push_destinations(
    out: &mut Writer<Vec<u8>>,
    network: &Network,
    bounds: &[PortBound],
    link: &VirtualLink,
    least: FrameSize,
    nodes: &[usize],
) -> Result<(), Error>
    requires limits { IsLinkInLimits link.now }
    requires size { least ≡ (sizes_in network.now link.now).least }
    ensures { OnOk result (Adds out.old out.new (destinations_text network.now bounds.now link.now nodes.now)) }
{
    for node in nodes {
        push_destination(out, network, bounds, link, least, *node)?;
    }
    Ok(())
}

/// Appends the bounds of each virtual link at each destination.
fn push_links(
    out: &mut Writer<Vec<u8>>,
    network: &Network,
    known: &[LinkSizes],
    bounds: &[PortBound],
) -> Result<(), Error>
    requires known { AreLeast network.now known.now }
    ensures { OnOk result (Adds out.old out.new (links_text network.now bounds.now)) }
{
    for vl in 0..network.vl_count() {
        let link = network.virtual_link(vl);
        let least = least_at(network, known, vl, &link);
        push_destinations(out, network, bounds, &link, least, network.destinations(vl))?;
    }
    Ok(())
}

/// Appends how many bytes wait at the port before a line.
fn push_port(
    out: &mut Writer<Vec<u8>>,
    network: &Network,
    line: usize,
    bound: &PortBound,
) -> Result<(), Error>
    ensures { OnOk result (Adds out.old out.new (port_text network.now line bound.now)) }
{
    if line >= network.line_count() {
        return Ok(());
    }
    let bytes = network.port_bytes(usize::from(network.line(line).from));
    match bound.waiting {
        Ok(waiting) => text::push_port(out, network, line, bytes, waiting),
        Err(reason) => text::push_no_room(out, network, line, reason),
    }
}

/// Appends how many bytes wait at each port.
fn push_ports(
    out: &mut Writer<Vec<u8>>,
    network: &Network,
    bounds: &[PortBound],
) -> Result<(), Error>
    ensures { OnOk result (Adds out.old out.new (ports_text network.now bounds.now)) }
{
    for line in 0..bounds.len() {
        push_port(out, network, line, &bounds[line])?;
    }
    Ok(())
}

/// Appends the lines of the bounds. An error is the library's own.
fn push_all(
    out: &mut Writer<Vec<u8>>,
    network: &Network,
    known: &[LinkSizes],
    bounds: &[PortBound],
) -> Result<(), Error>
    requires known { AreLeast network.now known.now }
    ensures { OnOk result (Adds out.old out.new (bounds_text network.now bounds.now)) }
{
    text::push_head(out)?;
    push_links(out, network, known, bounds)?;
    push_ports(out, network, bounds)
}

/// Makes the text of the bounds. An error is the library's own.
fn csv_text(
    alloc: Global,
    network: &Network,
    known: &[LinkSizes],
    bounds: &[PortBound],
) -> Result<Vec<u8>, Error>
    requires known { AreLeast network.now known.now }
    ensures { IfOk result (λ bytes. bytes.items ≡ bounds_text network.now bounds.now) }
{
    let mut out = empty(alloc);
    let put = push_all(&mut out, network, known, bounds);
    text_of(out, put)
}

/// Makes the same text, by weights that the program chooses.
fn text_in(alloc: Global, network: &Network, senders: Senders) -> Result<Vec<u8>, OutFault>
    ensures text { IfOk result (λ bytes. IsBoundsText senders network.now bytes.items) }
    ensures fault { IfErr result (λ fault. fault ≢ Device) }
{
    let known = all_sizes(alloc, network, senders)?;
    let bounds = bounds_of(alloc, network, known.as_slice())?;
    Ok(csv_text(alloc, network, known.as_slice(), bounds.as_slice())?)
}

/// Writes worst-case bounds of a network as comma-separated rows, each with a line feed at its end: with the frames that it states, or whatever
/// other end systems send.
///
/// The first line is `kind,of,where,network_ns,wait_ns,bound_ns,least_ns,jitter_ns,skew_ns,sure,sure_ns`. Then each virtual link and each of its
/// destinations, by number, gives `bound,VL,NAME,NETWORK_NS,WAIT_NS,BOUND_NS,LEAST_NS,JITTER_NS,,,`: the greatest age of a frame from its release on,
/// how long the regulator holds it at most, the sum, the least age of a frame, and how far latencies are apart at most, in ns. Then each line gives
/// `port,LINE,,BYTES,HOLDS,,,,,,`: how many bytes wait at most at the port before it, and `yes` or `no`, whether the port has room for them. If there
/// is no bound the line is `none,VL,NAME,WHY,,,,,,,` or `none,LINE,,WHY,,,,,,,`.
///
/// The text is made whole before its first byte is written. `Device` comes only if the sink failed; what was written is a beginning of the
/// text. `OutOfMemory` comes only if memory was refused, and `Layout` only if the library that lays out rows failed otherwise; then nothing
/// was written.
pub fn write_bounds<S: Sink>(
    alloc: Global,
    network: &Network,
    senders: Senders,
    sink: &mut S,
) -> Result<(), OutFault>
    ensures text { OnOk result ((text : List ℕ) × IsBoundsText senders network.now text × (S.taken sink.new ≡ append_known (S.taken sink.old) text)) }
    ensures went_well { OnOk result (S.failures sink.new ≡ S.failures sink.old) }
    ensures device { IfErr result (λ fault. fault ≡ Device → (text : List ℕ) × IsBoundsText senders network.now text × IsBeginning (S.taken sink.old) (S.taken sink.new) text) }
    ensures failed { IfErr result (λ fault. fault ≡ Device → S.failures sink.new ≡ S.failures sink.old + 1) }
    ensures kept { IfErr result (λ fault. fault ≢ Device → sink.new ≡ sink.old) }
{
    let bytes = text_in(alloc, network, senders)?;
    match write_all(sink, bytes.as_slice()) {
        Ok(()) => Ok(()),
        Err(_) => Err(OutFault::Device),
    }
}
