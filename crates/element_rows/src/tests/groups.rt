//! Results of the calls on an exchange of a network and on its groups. The expected values were worked out by hand.
ghost use Rattle.std.specs.Prelude.{◌≡◌, ◌≤◌, ◌^◌, true, length};
ghost use Rattle.network.specs.Words.{process_count};
ghost use Rattle.group_exchange.specs.Keeps.{AreGrouped};

use crate::tests::group_stage::{Groups, Handled, OfGroups, tell_steps};
use crate::tests::stage::play_words;
use crate::tests::words::tell;
use group_choice::groups_of;
use group_exchange::{Group, GroupExchange, Pairs};
use journal::PoolFault;
use network::Network;
use network_runs::NetworkRun;
use nodes::Node;
use seqsim::{layout_law, nodes_of};
use std::alloc::Global;
use std::marker::Brand;
use std::mem::forget;
use traffic::offers;

// Behind the network each row has how many steps the journal can have, how many groups the network has, and a script; then the answers of
// its words, and the steps of the journal (`group_stage.rt` describes both). Group 0 has the switch 2 and the lines 3 and 6 that lead to
// it, group 1 the end systems 0 and 1 and the lines 4 and 5 that lead to them. A frame of 64 bytes takes 5760 ns on a line, whose port is
// busy for 6720 ns, 100 ns on the way and 16000 ns in the switch.
//
// Of the last row, by docs/TIME-WARP.md and TRAFFIC.md (11):
// - the frame of ES1, offered at 0, is carried at 5760 (line 3), comes to the switch at 5860 and to its port at 21860, and is sent there: it is to be
//   carried at 27620 (line 5, the second message that the switch numbers). The port is free at 28580, which the window leaves out.
// - group 1 handles that frame at 27620 and 27720 (ES2), behind the frame of ES2, offered at 0, and two free ports at 6720. The frame of ES2 is carried at
//   5760 (line 6), which no member of group 0 has done yet, but comes to the switch at 5860, behind the other frame: it is a straggler, and the event at
//   21860 is undone. Its free port is taken back in the group, and its frame on line 5 by an antimessage. Then both frames leave the switch again.
// - at group 1 the antimessage comes first, before the two frames: the line 5 takes back what ES2 got of it, and both frames are delivered at 27720.
// - GVT is 28580, where both ports get free, and at last 2000001; committed are the events before it, in their order.
pub const ROWS: &str = "\
groups n3 1 2, collect:1 steps collect:0 collect:2 => full 0 0 none |
groups n3 9 2, collect:1 work:1:1:1 post:1 abroad:1 steps fits:1 => 2 1 full 1 2 1 | T:0.0 T:1.0
groups n3 200 2, collect:1 work:1:1:1 abroad:1 post:1 collect:0 work:0:16:28000 post:0 collect:1 work:1:16:28000 post:1 collect:0 work:0:16:28000 abroad:0 post:0 collect:1 work:1:16:28000 post:1 publish collect:0 seen:0 work:0:16:1000000 post:0 publish collect:1 work:1:16:1 post:1 collect:0 work:0:16:1 post:0 fits:0 fits:1 gvt steps => 2 1 1 1 1 3 1 1 5 1 1 4 3 1 3 4 1 28580 0 28580 2 1 2000001 0 0 1 0 0 1 1 1 2000001 111 | T:0.0 T:1.0 A:0 P:0 A:1 P:1 R:0 P:0 T:0.0 A:0 T:3.0 A:3 P:3 R:3 P:3 T:2.0 A:2 R:2 P:2 T:2.0 A:2 R:2 P:2 T:2.0 A:2 T:5.0 A:5 P:5 R:1 P:1 T:1.0 A:1 R:0 P:0 R:1 P:1 R:5 P:5 T:1.0 A:1 R:1 P:1 T:6.0 A:6 P:6 R:6 P:6 T:2.0 A:2 P:2 T:2.0 A:2 P:2 R:2 P:2 T:2.0 A:2 R:2 P:2 T:2.0 A:2 R:2 P:2 T:2.0 A:2 T:5.0 T:5.0 T:4.0 A:5 P:5 T:1.0 A:5 P:5 A:4 P:4 A:1 P:1 R:4 P:4 T:0.0 A:0 R:5 P:5 T:1.0 A:1 R:0 P:0 R:1 P:1 G R:2 P:2 R:2 P:2 C:3 C:6 C:2 C:2 C:2 C:2 G C:0 C:1 C:0 C:1 C:4 C:5 C:0 C:1 C:2 C:2";

// Writes the answers of the words of a script; stores which calls are refused memory.
pub fn tell_groups(
    alloc: Global,
    network: &Network,
    limit: u64,
    groups: u16,
    script: &str,
    told: &mut String,
    refused: &mut String,
) {
    if play_script(alloc, network, limit, groups, script, told, refused).is_err() {
        tell(told, "no memory");
    }
}

fn play_script(
    alloc: Global,
    network: &Network,
    limit: u64,
    groups: u16,
    script: &str,
    told: &mut String,
    refused: &mut String,
) -> Result<(), PoolFault> {
    let limit = limit.min(1 << 26);
    let groups = groups.max(1).min(64);
    let script = String::from_str(alloc, script)?;
    let owners = groups_of(alloc, network, groups)?;
    let pairs = Pairs::new(alloc, usize::from(groups))?;
    play_at_start::<Brand>(alloc, network, owners, pairs, limit, &script, told, refused)
}

// Plays at an exchange of the network, at its start. Beside a `&str` nothing could be picked at `Brand`.
fn play_at_start<J: NetworkRun>(
    alloc: Global,
    network: &Network,
    owners: Vec<u16>,
    pairs: Pairs,
    limit: u64,
    script: &String,
    told: &mut String,
    refused: &mut String,
) -> Result<(), PoolFault>
    requires network { network.now ≡ J.plan }
    requires kept { J.keeps ≡ true }
    requires names { pairs ≡ J.names }
    requires owners { owners.items ≡ J.owners }
    requires grouped { AreGrouped (process_count network.now) (length J.names) J.owners }
    requires few { length J.names ≤ 64 }
    requires most { limit ≤ 2 ^ 26 }
{
    let (mut exchange, mut groups) = open::<J>(alloc, network, owners, pairs, limit)?;
    let mut stage = Groups {
        exchange: &mut exchange,
        groups: &mut groups,
        handled: Handled::new(),
    };
    play_words(&mut stage, script.as_str(), told, refused);
    tell_steps(&exchange, told);
    forget(groups);
    forget(exchange);
    Ok(())
}

// The exchange of the network and its groups at the start.
fn open<J: NetworkRun>(
    alloc: Global,
    network: &Network,
    owners: Vec<u16>,
    pairs: Pairs,
    limit: u64,
) -> Result<
    (
        GroupExchange<Node, OfGroups<J>>,
        Vec<Group<Node, OfGroups<J>>>,
    ),
    PoolFault,
>
    requires network { network.now ≡ J.plan }
    requires kept { J.keeps ≡ true }
    requires names { pairs ≡ J.names }
    requires owners { owners.items ≡ J.owners }
    requires grouped { AreGrouped (process_count network.now) (length J.names) J.owners }
    requires few { length J.names ≤ 64 }
    requires most { limit ≤ 2 ^ 26 }
{
    layout_law(network);
    // A network has at most 4,096 processes.
    let _processes = network.process_count();
    let offers = offers(alloc, network)?;
    let nodes = nodes_of(alloc, network)?;
    GroupExchange::open(
        alloc,
        nodes,
        &offers,
        owners,
        network.until(),
        true,
        pairs,
        limit,
    )
}
