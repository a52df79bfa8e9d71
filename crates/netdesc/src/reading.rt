//! From the text of a network description to the network, or to the first fault.
ghost use Rattle.std.specs.Prelude.{OnOk, IfOk, IfErr};
ghost use Rattle.netdesc.specs.Description.{HasNoFault, TellsFaultOf, Describes};

use network::Network;
use network_rows::{DescFault, read_rows};
use network_tables::network_of;
use std::alloc::Global;

/// Reads a network description, a text in TOML.
///
/// An error is the first fault of the text, in the order of their numbers, sections, rows and keys, or it means that memory was refused.
#[tactic(auto, using(crate::proofs::FaultLemmas::told_of_key, crate::proofs::FaultLemmas::sound_of, crate::proofs::FaultLemmas::described_of, crate::proofs::FaultLemmas::told_of_rows))]
pub fn read(alloc: Global, text: &str) -> Result<Network, DescFault>
    // A text that is read has no fault, and a text without a fault is read unless memory is refused.
    ensures sound { OnOk result (HasNoFault text.now) }
    ensures network { IfOk result (Describes text.now) }
    ensures fault { IfErr result (TellsFaultOf text.now) }
{
    let rows = read_rows(alloc, text)?;
    network_of(alloc, rows)
}
