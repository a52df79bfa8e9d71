//! The line into which each port leads.
ghost use Rattle.std.specs.Prelude.{◌≡◌, ℕ, ◌+◌, ◌<◌, ◌&&◌, None, Some, is_none, if◌then◌else◌, length, map, slice_index_or, vec_len, IfOk};
ghost use Rattle.std.specs.Option.{option_map};
ghost use Rattle.network.specs.Words.{lines_of};
ghost use Rattle.nodes.specs.rules.Opening.{leaves_by, lines_ahead_of, outlet_of, ports_of};

use crate::ports::{LineAhead, Outlet, Ports};
use network::{LinePlan, Network};
use output_port::Port;
use std::alloc::{AllocError, Global};
use vlink::process_number;

/// Returns the process of a line.
fn process_of(network: &Network, line: usize) -> u16
    requires { line < length (lines_of network.now) }
    ensures { result ≡ length network.now.nodes + line }
{
    let _processes = network.process_count();
    let _lines = network.line_count();
    process_number(network.node_count() + line)
}

/// Notes a line at the port that leads into it, if the line leaves this node and the port has no line yet.
fn note_line(lines_ahead: &mut Vec<Option<LineAhead>>, node: u16, line: LinePlan, ahead: LineAhead)
    ensures stored { (q : ℕ) → q < vec_len lines_ahead.old →
        slice_index_or lines_ahead.new.items q None ≡ (if leaves_by node q line && is_none (slice_index_or lines_ahead.old.items q None) then Some ahead else slice_index_or lines_ahead.old.items q None) }
    ensures len { vec_len lines_ahead.new ≡ vec_len lines_ahead.old }
{
    let port = usize::from(line.from_port);
    if line.from == node && port < lines_ahead.len() && lines_ahead[port].is_none() {
        lines_ahead[port] = Some(ahead);
    }
}

/// Returns the lines into which the first `count` ports of a node lead. It looks at each line once.
fn lines_ahead_of(
    alloc: Global,
    network: &Network,
    node: u16,
    count: usize,
) -> Result<Vec<Option<LineAhead>>, AllocError>
    ensures { IfOk result (λ lines_ahead. lines_ahead.items ≡ lines_ahead_of network.now node count) }
{
    let mut lines_ahead = vec![in alloc; None; count]?;
    for k in 0..network.line_count() {
        let line = network.line(k);
        let ahead = LineAhead {
            line: process_of(network, k),
            byte_ns: line.byte_ns,
        };
        note_line(&mut lines_ahead, node, line, ahead);
    }
    Ok(lines_ahead)
}

/// Makes the port that leads into a line, and at which at most `port_bytes` bytes may wait.
fn outlet_of(
    alloc: Global,
    ahead: Option<LineAhead>,
    bytes: u32,
) -> Result<Option<Outlet>, AllocError>
    ensures { IfOk result (λ outlet. outlet ≡ option_map (outlet_of bytes) ahead) }
{
    let Some(ahead) = ahead else { return Ok(None) };
    let port = Port::new(alloc, bytes)?;
    Ok(Some(Outlet { ahead, port }))
}

/// Makes the ports that lead into these lines, at each of which at most `port_bytes` bytes may wait.
fn outlets_of(
    alloc: Global,
    lines_ahead: &[Option<LineAhead>],
    bytes: u32,
) -> Result<Vec<Option<Outlet>>, AllocError>
    ensures { IfOk result (λ outlets. outlets.items ≡ map (option_map (outlet_of bytes)) lines_ahead.now) }
{
    let mut outlets = Vec::new(alloc);
    for ahead in lines_ahead {
        outlets.push(outlet_of(alloc, *ahead, bytes)?)?;
    }
    Ok(outlets)
}

/// Makes the first `count` ports of a node, at each of which at most `port_bytes` bytes may wait.
pub fn ports_of(
    alloc: Global,
    network: &Network,
    node: u16,
    count: usize,
    bytes: u32,
) -> Result<Ports, AllocError>
    ensures { IfOk result (λ ports. ports ≡ ports_of network.now node count bytes) }
{
    let lines_ahead = lines_ahead_of(alloc, network, node, count)?;
    Ok(Ports::new(outlets_of(alloc, &lines_ahead, bytes)?))
}
