//! The exchange of a network's groups at the start.
ghost use Rattle.std.specs.Prelude.{◌≡◌, [], length, IfOk};
ghost use Rattle.reverse.specs.Setting.{Opens};
ghost use Rattle.seqsim.specs.Networks.{setting_of};

use crate::grouping::Grouping;
use crate::start::StartOf;
use group_exchange::GroupExchange;
use group_turns::{NetworkGroup, Shared, most_steps};
use network::Network;
use network_runs::NetworkRun;
use nodes::Node;
use seqsim::{layout_law, nodes_of};
use std::alloc::{AllocError, Global};
use traffic::offers;
use vlink::Message;

/// Makes the exchange of a network's groups without steps in its journal, and each group in hand, in order, its nodes and lines in their
/// opening states. The offers are in transit, and GVT is 0. Only memory can be refused.
pub(crate) fn open_groups<J: NetworkRun>(
    alloc: Global,
    start: StartOf<'_, J>,
) -> Result<(Shared<J>, Vec<NetworkGroup<J>>), AllocError>
    ensures steps { IfOk result (λ r. r.0.steps ≡ []) }
    ensures count { IfOk result (λ r. length r.1.items ≡ start.entry.grouping.groups) }
{
    let (offers, nodes) = match opening_of(alloc, start.network) {
        Ok(opening) => opening,
        Err(fault) => {
            drop(start);
            return Err(fault);
        }
    };
    let StartOf {
        network,
        keeps,
        grouping,
        pairs,
        ..
    } = start;
    layout_law(network);
    // A network has at most 4,096 processes.
    let _processes = network.process_count();
    let Grouping { owners, .. } = grouping;
    let opened = GroupExchange::open(
        alloc,
        nodes,
        &offers,
        owners,
        network.until(),
        keeps,
        pairs,
        most_steps(keeps),
    );
    drop(offers);
    match opened {
        Ok((inner, groups)) => Ok((Shared { inner, sections: 0 }, groups)),
        Err(_) => Err(AllocError),
    }
}

/// What a network opens with: the offers, and its nodes. It is refused for memory alone.
fn opening_of(alloc: Global, network: &Network) -> Result<(Vec<Message>, Vec<Node>), AllocError>
    ensures { IfOk result (λ r. Opens (setting_of network.now) r.1.items r.0.items) }
{
    let offers = offers(alloc, network)?;
    let nodes = nodes_of(alloc, network)?;
    Ok((offers, nodes))
}
