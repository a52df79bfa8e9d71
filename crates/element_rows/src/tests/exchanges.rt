//! Results of the calls on an exchange of a network and on its processes. The expected values were worked out by hand.
ghost use Rattle.std.specs.Prelude.{◌≡◌, ◌≤◌, ◌^◌, true, length};
ghost use Rattle.network.specs.Words.{process_count};

use crate::tests::stage::{play_on_processes, tell_journal};
use crate::tests::words::tell;
use journal::{PoolFault, Table};
use network::Network;
use network_runs::NetworkRun;
use process_exchange::Pairs;
use process_segments::open_network;
use std::alloc::Global;
use std::marker::Brand;
use std::mem::forget;

// Behind the network each row has how many steps the journal can have, and a script; then the answers of its words, and the steps of the
// journal (`stage.rt` describes both). What stands behind `other` is done at a new exchange of the same network, over the same table.
pub const ROWS: &str = "\
exchange n1 3, collect:0:8 work:0:16:1 post:0 steps pending:0 fits:0 => 1 2 full 1 2 1 | T:0.0
exchange n1 4, collect:0:8 work:0:16:1 post:0 post:0 steps pending:0 publish collect:0:8 mail:0 => 1 2 1 1 4 0 full full 1 | T:0.0 A:0 R:0 P:0
exchange n1 100, collect:0:8 other fits:0 collect:0:8 steps gvt mail:0 pending:0 fits:0 => 1 | T:0.0 1 torn 0 0 1 0 1 |
exchange n1 100, collect:0:0 collect:0:8 collect:0:8 mail:0 collect:1:8 fits:7 pending:7 steps => 0 1 0 0 0 none none 1 | T:0.0
exchange late 100, publish publish steps => 1000 1000 1 | G
exchange n1 100, collect:0:8 work:0:16:1 post:0 publish collect:0:8 publish => 1 2 1 5760 1 5760 | T:0.0 A:0 R:0 P:0 G T:0.0
exchange n1 100, collect:0:8 work:0:16:1 post:0 publish collect:0:8 work:0:16:960 post:0 steps => 1 2 1 5760 1 2 1 9 | T:0.0 A:0 R:0 P:0 G T:0.0 A:0 C:0 P:0
exchange n1 100, collect:0:8 work:0:16:1 post:0 publish collect:0:8 work:0:16:961 pending:0 post:0 steps => 1 2 1 5760 1 3 3 1 10 | T:0.0 A:0 R:0 P:0 G T:0.0 A:0 R:0 C:0 P:0
exchange n1 100, collect:0:8 work:0:16:1 post:0 mail:0 mail:3 collect:3:8 work:3:16:10000 post:3 mail:2 mail:3 publish steps => 1 2 1 1 1 1 2 1 1 0 5860 9 | T:0.0 A:0 R:0 P:0 T:3.0 A:3 R:3 P:3 G
exchange n1 100, collect:0:8 work:0:0:961 work:0:1:961 work:0:1:961 pending:0 before after post:0 => 1 1 1 0 2 1 1 1 | T:0.0 A:0 R:0 P:0";

// Writes the answers of the words of each part; stores which calls are refused memory. A script of one part has a table of its own, and one
// of two parts shares its table between them.
pub fn tell_exchange(
    alloc: Global,
    network: &Network,
    limit: u64,
    script: &str,
    told: &mut String,
    refused: &mut String,
) {
    let mut table = Table::new();
    match script.split_once(" other ") {
        None => tell_part(alloc, network, table, limit, script, told, refused),
        Some((first, second)) => match table.share(alloc) {
            Ok(other) => {
                tell_part(alloc, network, table, limit, first, told, refused);
                tell_part(alloc, network, other, limit, second, told, refused);
            }
            Err(_) => {
                forget(table);
                tell(told, "no memory");
            }
        },
    }
}

// Plays one part of a script at an exchange of its own, over this table.
fn tell_part(
    alloc: Global,
    network: &Network,
    table: Table,
    limit: u64,
    part: &str,
    told: &mut String,
    refused: &mut String,
) {
    if play_part(alloc, network, table, limit, part, told, refused).is_err() {
        tell(told, "no memory");
    }
}

fn play_part(
    alloc: Global,
    network: &Network,
    table: Table,
    limit: u64,
    part: &str,
    told: &mut String,
    refused: &mut String,
) -> Result<(), PoolFault> {
    let limit = limit.max(1).min(1 << 26);
    let part = String::from_str(alloc, part)?;
    let pairs = Pairs::new(alloc, usize::from(network.process_count()))?;
    play_at_start::<Brand>(alloc, network, table, pairs, limit, &part, told, refused)
}

// Plays at an exchange of the network over this table, at its start. Beside a `&str`, no type could be chosen at `Brand`.
fn play_at_start<J: NetworkRun>(
    alloc: Global,
    network: &Network,
    table: Table,
    pairs: Pairs,
    limit: u64,
    part: &String,
    told: &mut String,
    refused: &mut String,
) -> Result<(), PoolFault>
    requires network { network.now ≡ J.plan }
    requires kept { J.keeps ≡ true }
    requires names { pairs ≡ J.names }
    requires each { length J.names ≡ process_count network.now }
    requires some { 1 ≤ limit }
    requires most { limit ≤ 2 ^ 26 }
{
    let (mut exchange, mut helds) = open_network::<J>(alloc, network, Some(table), pairs, limit)?;
    play_on_processes(&mut exchange, &mut helds, part.as_str(), told, refused);
    tell_journal(&exchange, told);
    forget(helds);
    forget(exchange);
    Ok(())
}
