//! Lines without outages can run ahead: each handles a frame when the frame is sent into it.
ghost use Rattle.std.specs.Prelude.{◌≡◌, ◌<◌, Bool, true, List, [], length, IfOk};
ghost use Rattle.runs_ahead.specs.Standing.{RunAhead};
ghost use Rattle.network.specs.Words.{lines_of, outages_of, process_count};
ghost use Rattle.nodes.specs.Words.{simulation_of};
ghost use Rattle.actor_run.specs.RunningAhead.{is_marked};
ghost use Rattle.seq_tables.specs.Lines.{AreMarked, IsOpenLine, starts_of};

use network::Network;
use plan_ports::{offered_law, ports_law};
use seqsim::network_law;
use std::alloc::{AllocError, Global};

/// Whether a line has no outages.
fn has_no_outages(network: &Network, line: usize) -> bool
    requires { line < length (lines_of network.now) }
    ensures { result ≡ true → outages_of network.now line ≡ [] }
{
    match network.outages(line) {
        [] => true,
        _ => false,
    }
}

/// Whether this process is a line without outages.
fn is_open_line(network: &Network, process: u16) -> bool
    requires { process < process_count network.now }
    ensures { result ≡ true → IsOpenLine network.now process }
{
    let nodes = network.node_count();
    if usize::from(process) < nodes {
        return false;
    }
    let _lines = network.line_count();
    let line = usize::from(process) - nodes;
    has_no_outages(network, line)
}

/// Marks the processes of a network that run ahead: lines without outages, and no others. Process p is in place p. It fails only if memory
/// is refused.
pub fn lines_ahead(alloc: Global, network: &Network) -> Result<Vec<bool>, AllocError>
    ensures { IfOk result (λ marks. AreMarked network.now marks.items) }
{
    let mut marks = Vec::new(alloc);
    for process in 0..network.process_count() {
        marks.push(is_open_line(network, process))?;
    }
    Ok(marks)
}

/// In the simulation of a network the marked lines can run ahead. Each receives the frames of one port alone, which puts them into the line
/// one after another. It loses none, so it notes nothing, and it sends them to a node, which does not run ahead.
pub fn lines_ahead_law(network: &Network)
    ensures { (marks : List Bool) → AreMarked network.now marks → RunAhead (simulation_of network.now) (is_marked marks) (starts_of network.now) }
{
    network.accepted_law();
    network_law(network);
    ports_law(network);
    offered_law(network);
}
