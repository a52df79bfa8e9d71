//! The tables of the run of a network, if its rows are not asked for. Lines without outages run ahead: a frame that is sent into such a line
//! waits as the frame that arrives at its end, and does not wait first as one that leaves its port.
ghost use Rattle.std.specs.Prelude.{◌≡◌, ◌≢◌, ◌≤◌, ◌^◌, ℕ, [], List, length, Err, OnOk, IfOk};
ghost use Rattle.vlink.specs.Letters.{Row};
ghost use Rattle.nodes.specs.Words.{simulation_of};
ghost use Rattle.trace_tables.specs.Tables.{tables_of};
ghost use Rattle.actor_run.specs.declared.fault.SimFault.TheVariants.{Exhausted};
ghost use Rattle.actor_run.specs.Running.{StandsAt, IsExhaustedAt, HasNumbersFrom};
ghost use Rattle.seqsim.specs.Networks.{AreRowsOf};

use crate::counted::Counted;
use crate::lines::{lines_ahead, lines_ahead_law};
use actor_run::{SimFault, Waiting, Watch, handle_all_ahead};
use network::Network;
use nodes::Node;
use plan_numbers::numbers_law;
use seqsim::{network_law, nodes_of};
use std::alloc::Global;
use trace_tables::Tables;
use traffic::offers;
use vlink::Message;

/// Memory holds fewer than 2^63 bytes, and a message takes at least 8 of them.
fn few_law(messages: &[Message])
    ensures { length messages.now ≤ 2 ^ 60 }
{
    let _count = messages.len();
}

/// Handles the messages, one after another, until none waits. Their rows are counted, and not stored. The function drops the nodes before
/// it makes the tables, so that memory never holds both.
fn count_all<W: Watch>(
    alloc: Global,
    network: &Network,
    mut nodes: Vec<Node>,
    mut waiting: Waiting,
    watch: &mut W,
) -> Result<Tables, SimFault>
    requires { StandsAt (simulation_of network.now) 0 nodes.items waiting [] }
    ensures whole { IfOk result (λ tables. (rows : List Row) × AreRowsOf network.now rows × (tables ≡ tables_of network.now rows)) }
    ensures exhausted { result ≡ Err Exhausted → (n : ℕ) × IsExhaustedAt (simulation_of network.now) n }
    ensures watched { W.becomes watch.old watch.new }
{
    network_law(network);
    lines_ahead_law(network);
    let ahead = lines_ahead(alloc, network)?;
    let mut counted = Counted::none(alloc, network)?;
    handle_all_ahead(&mut nodes, &ahead, &mut waiting, &mut counted, watch)?;
    drop(nodes);
    drop(waiting);
    Ok(counted.into_tables()?)
}

/// Simulates a network on one thread, as `run` does, if only the tables are asked for: a note is counted as soon as it is found, and its
/// row is not stored. The tables are those of the rows of the one-thread run of the laws of virtual time, and after it nothing waits.
/// `watch` is shown how far the run is.
///
/// It fails only if memory is refused, and then the result is that fault and nothing else. No process lacks the numbers for what one event
/// can send, since memory holds fewer than 2^60 offers.
pub fn run_tables<W: Watch>(
    alloc: Global,
    network: &Network,
    watch: &mut W,
) -> Result<Tables, SimFault>
    ensures whole { IfOk result (λ tables. (rows : List Row) × AreRowsOf network.now rows × (tables ≡ tables_of network.now rows)) }
    ensures each { IfOk result (λ tables. (rows : List Row) → AreRowsOf network.now rows → tables ≡ tables_of network.now rows) }
    ensures exhausted { result ≢ Err Exhausted }
    ensures numbers { OnOk result (HasNumbersFrom (simulation_of network.now) 0) }
    ensures watched { W.becomes watch.old watch.new }
{
    network_law(network);
    let offers = offers(alloc, network)?;
    few_law(offers.as_slice());
    numbers_law(network);
    let nodes = nodes_of(alloc, network)?;
    let waiting = Waiting::of_offers(alloc, offers, nodes.len())?;
    count_all(alloc, network, nodes, waiting, watch)
}
