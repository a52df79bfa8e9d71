//! `bounds NET [--contract]`: writes how long frames take at most, and how many bytes wait at most, in any run of a network.
ghost use Rattle.std.specs.Prelude.{◌≡◌, ◌≢◌, ℕ, true, List, IfErr, OnOk};
ghost use Rattle.network_bounds.specs.Text.{IsBoundsText};
ghost use Rattle.plan_bounds.specs.Columns.{AreContractTextsTrue, AreTextsTrue};
ghost use Rattle.plan_bounds.specs.Latencies.{AreLatencyBounds};
ghost use Rattle.plan_bounds.specs.Rooms.{AreRoomsEnough};
ghost use Rattle.commands.specs.declared.fault.Fault.TheVariants.{CannotWrite};
ghost use Rattle.commands.specs.Bounding.{ShowsBounds, senders_of};
ghost use Rattle.commands.specs.Ending.{Took, IsFaultOfOutput};
ghost use Rattle.commands.specs.Files.{LacksOutput, ShowsAlone};
ghost use Rattle.commands.specs.Streams.{IsQuiet};

use crate::fault::Fault;
use crate::host::Host;
use command_line::Bounds;
use network::Network;
use network_bounds::{Senders, write_bounds};
use plan_bounds::{bounds_law, text_law};
use std::alloc::Global;
use trace_tables::{OutFault, Sink};

/// Writes bounds of the network.
fn show_bounds<O: Sink>(
    alloc: Global,
    network: &Network,
    senders: Senders,
    output: &mut O,
) -> Result<(), Fault<'static>>
    ensures text { OnOk result ((text : List ℕ) × IsBoundsText senders network.now text × Took O.taken output.old output.new text) }
    ensures fault { IfErr result (IsFaultOfOutput true O.failures output.old output.new) }
    ensures kept { IfErr result (λ fault. fault ≢ CannotWrite → output.new ≡ output.old) }
{
    match write_bounds(alloc, network, senders, output) {
        Ok(()) => Ok(()),
        Err(OutFault::Device) => Err(Fault::CannotWrite),
        Err(OutFault::Layout) => Err(Fault::Layout),
        Err(OutFault::OutOfMemory) => Err(Fault::OutOfMemory),
    }
}

/// Returns which frames of other end systems count.
fn senders_of(order: &Bounds) -> Senders
    ensures { result ≡ senders_of order.now }
{
    if order.contract {
        Senders::ByContract
    } else {
        Senders::AsStated
    }
}

/// Writes bounds of the network to standard output. It runs nothing, and makes no offers.
///
/// - `latencies`: in the one-thread run of the network no frame is delivered later after its offer than these bounds say.
/// - `rooms`: a node drops no frame because a port is full, if these bounds fit the bytes of each of its ports.
/// - `stated`: what each line of such a text says, column by column, holds in the one-thread run of every network of the shape: that differs in
///   seed, end, outages and streams alone, if the least and the greatest frame of each virtual link are the same.
/// - `by_contract`: what each line of such a text by contract says holds in that of every network that agrees in nodes, lines and virtual links, if
///   the end system of its virtual link or port keeps its sizes.
pub fn bounds<H: Host>(
    alloc: Global,
    network: &Network,
    order: &Bounds,
    host: &mut H,
) -> Result<(), Fault<'static>>
    ensures latencies { AreLatencyBounds network.now }
    ensures rooms { AreRoomsEnough network.now }
    ensures stated { AreTextsTrue network.now }
    ensures by_contract { AreContractTextsTrue network.now }
    ensures text { OnOk result (ShowsBounds H.outside host.old host.new (senders_of order.now) network.now) }
    ensures left { OnOk result (ShowsAlone H.outside host.old host.new) }
    ensures fault { IfErr result (LacksOutput H.outside true host.old host.new) }
    ensures kept { IfErr result (λ fault. fault ≢ CannotWrite → H.outside.output host.new ≡ H.outside.output host.old) }
    ensures quiet { IsQuiet H.outside host.old host.new }
{
    bounds_law(network);
    text_law(network);
    show_bounds(alloc, network, senders_of(order), host.output())
}
