//! Obeys an order: does it, or reports the fault that it met.
ghost use Rattle.std.specs.Prelude.{◌≡◌, ◌≢◌, ◌⊎◌, ℕ, List, OnOk, OnErr, IfErr};
ghost use Rattle.commands.specs.declared.fault.Fault.TheVariants.{CannotWrite};
ghost use Rattle.commands.specs.Naming.{NamesTwice};
ghost use Rattle.commands.specs.Streams.{IsHeard};
ghost use Rattle.afdxsim.specs.Orders.{Done, DoneOn, Ends, IsFaultOf, IsFaultOn, IsLineOf, asks_progress};

use crate::run::run;
use command_line::Order;
use commands::{
    Fault, Host, bounds, check, named_twice, net_of, network_of, refuse_twice, replay, seq,
    tell_outcome,
};
use network::Network;
use std::alloc::Global;
use std::sync::Wait;
use std::thread::Threads;
use std::time::Clock;

/// Does the order on a network. A fault ends it at once.
fn done_on<'a, H: Host, T: Threads + Wait + Clock + Sync>(
    rt: &T,
    alloc: Global,
    network: Network,
    order: &'a Order,
    host: &mut H,
) -> Result<(), Fault<'a>>
    ensures done { OnOk result (DoneOn H.outside host.old host.new network order.entry.now) }
    ensures fault { IfErr result (IsFaultOn H.outside host.old host.new network order.entry.now) }
    ensures kept { IfErr result (λ fault. fault ≢ CannotWrite → H.outside.output host.new ≡ H.outside.output host.old) }
    ensures heard { OnErr result (IsHeard H.outside host.old (asks_progress order.entry.now) (IsLineOf order.entry.now network) (H.outside.errors host.new)) }
{
    match order {
        Order::Check(_) => {
            let done = check(alloc, &network, host);
            drop(network);
            done
        }
        Order::Seq(order) => {
            let done = seq(rt, alloc, &network, order, host);
            drop(network);
            done
        }
        Order::Run(order) => {
            let done = run(rt, alloc, &network, order, host);
            drop(network);
            done
        }
        Order::Replay(order) => replay(alloc, network, order, host),
        Order::Bounds(order) => {
            let done = bounds(alloc, &network, order, host);
            drop(network);
            done
        }
    }
}

/// Does the order. It reads and checks the description before it reads or creates any other file.
fn do_order<'a, H: Host, T: Threads + Wait + Clock + Sync>(
    rt: &T,
    alloc: Global,
    order: &'a Order,
    host: &mut H,
) -> Result<(), Fault<'a>>
    ensures done { OnOk result (Done H.outside host.old host.new order.entry.now) }
    ensures fault { IfErr result (IsFaultOf H.outside host.old host.new order.entry.now) }
    ensures kept { IfErr result (λ fault. fault ≢ CannotWrite → H.outside.output host.new ≡ H.outside.output host.old) }
{
    let network = network_of(alloc, net_of(order), host)?;
    done_on(rt, alloc, network, order, host)
}

/// Does the order, and reports the fault that it met, if any. If the order names a file twice, it reports that, and reads, creates and
/// writes nothing.
pub fn obey<H: Host, T: Threads + Wait + Clock + Sync>(
    rt: &T,
    alloc: Global,
    order: &Order,
    host: &mut H,
) -> u8
    ensures status { (result ≡ 0) ⊎ (result ≡ 2) ⊎ (result ≡ 3) ⊎ (result ≡ 4) ⊎ (result ≡ 5) }
    ensures twice { result ≡ 2 → (path : List ℕ) × NamesTwice (H.outside.tells host.old) order.now path }
    ensures ends { Ends H.outside host.old host.new order.now result }
{
    match named_twice(order, host) {
        Some(path) => refuse_twice(alloc, path, host),
        None => {
            let outcome = do_order(rt, alloc, order, host);
            tell_outcome(alloc, outcome, host)
        }
    }
}
