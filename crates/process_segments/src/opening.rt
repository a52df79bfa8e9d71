//! The exchange of a network at the start.
ghost use Rattle.std.specs.Prelude.{◌≡◌, ℕ, ◌<◌, ◌≤◌, ◌^◌, [], replicate, length, slice_get, Some, is_some, IfOk, IfErr};
ghost use Rattle.network.specs.Words.{process_count};
ghost use Rattle.nodes.specs.Words.{opening};
ghost use Rattle.journal.specs.declared.fault.PoolFault.TheVariants.{OutOfMemory};
ghost use Rattle.journal.specs.Listing.{is_shared};
ghost use Rattle.process_exchange.specs.Views.{blank, opened_held};

use crate::network_run::Of;
use journal::{PoolFault, Table};
use network::Network;
use network_actors::{layout_law, nodes_of};
use network_runs::NetworkRun;
use nodes::Node;
use process_exchange::{Exchange, Held, Pairs};
use std::alloc::Global;
use traffic::offers;

/// Makes the exchange of a network without entries in its journal, and each of its nodes and lines in hand, in order, in its opening state:
/// the offers are in the mail, every floor is the moment after the end, and GVT is 0. The journal can have `limit` steps. If a table is
/// given, the journal is stored and has its places there. Each process has the other half of its mark. Only memory can be refused.
pub fn open_network<J: NetworkRun>(
    alloc: Global,
    network: &Network,
    table: Option<Table>,
    pairs: Pairs,
    limit: u64,
) -> Result<(Exchange<Node, Of<J>>, Vec<Held<Node, Of<J>>>), PoolFault>
    requires network { network.now ≡ J.plan }
    requires keeps { is_some table ≡ J.keeps }
    requires names { pairs ≡ J.names }
    requires each { length J.names ≡ process_count network.now }
    requires some { 1 ≤ limit }
    requires most { limit ≤ 2 ^ 62 }
    ensures exchange { IfOk result (λ r. r.0 ≡ record { entries = []; marks = replicate (process_count network.now) blank; shared = is_shared table; limit = limit }) }
    ensures count { IfOk result (λ r. length r.1.items ≡ process_count network.now) }
    ensures opened { IfOk result (λ r. (p : ℕ) → p < process_count network.now → slice_get r.1.items p ≡ Some (opened_held (opening network.now) p)) }
    ensures memory { IfErr result (λ fault. fault ≡ OutOfMemory) }
{
    layout_law(network);
    // A network has at most 4,096 processes.
    let _processes = network.process_count();
    let offers = offers(alloc, network)?;
    let nodes = nodes_of(alloc, network)?;
    Exchange::open(alloc, nodes, &offers, network.until(), table, pairs, limit)
}
