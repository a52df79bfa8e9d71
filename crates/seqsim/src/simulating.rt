//! The run of a network.
ghost use Rattle.std.specs.Prelude.{◌≡◌, ℕ, Err, OnOk, IfOk};
ghost use Rattle.nodes.specs.Words.{simulation_of};
ghost use Rattle.trace_tables.specs.Tables.{tables_of};
ghost use Rattle.actor_run.specs.declared.fault.SimFault.TheVariants.{Exhausted};
ghost use Rattle.actor_run.specs.Running.{IsExhaustedAt, HasNumbersFrom};
ghost use Rattle.network_actors.specs.Networks.{AreRowsOf};

use actor_run::{SimFault, Watch, run_actors};
use network::Network;
use network_actors::{network_law, nodes_of};
use std::alloc::Global;
use trace_tables::Tables;
use traffic::offers;
use vlink::Row;

/// The results of a run: a row for each frame that was delivered or dropped, in the order of the events, and their tables.
#[derive(Drop)]
pub struct Finished {
    pub tables: Tables,
    pub rows: Vec<Row>,
}

/// Simulates a network on one thread: the receiver of the first waiting message handles it, until none waits. The rows are those of the
/// one-thread run of the laws of virtual time, and after it nothing waits. `watch` is shown how far the run is.
///
/// `OutOfMemory` comes only if memory was refused, and `Exhausted` only if the process that is next does not have enough numbers left for
/// what one event can send. If that happens anywhere in the run, the result is a fault and nothing else.
pub fn run<W: Watch>(alloc: Global, network: &Network, watch: &mut W) -> Result<Finished, SimFault>
    ensures whole { IfOk result (λ finished. AreRowsOf network.now finished.rows.items) }
    ensures tables { IfOk result (λ finished. finished.tables ≡ tables_of network.now finished.rows.items) }
    ensures exhausted { result ≡ Err Exhausted → (n : ℕ) × IsExhaustedAt (simulation_of network.now) n }
    ensures numbers { OnOk result (HasNumbersFrom (simulation_of network.now) 0) }
    ensures watched { W.becomes watch.old watch.new }
{
    network_law(network);
    let offers = offers(alloc, network)?;
    let mut nodes = nodes_of(alloc, network)?;
    let rows = run_actors(alloc, &mut nodes, &offers, watch)?;
    let tables = Tables::of(alloc, network, &rows)?;
    Ok(Finished { tables, rows })
}
