//! Reads the network that a file describes.
ghost use Rattle.std.specs.Prelude.{◌≡◌, OnOk, IfOk, IfErr};
ghost use Rattle.netdesc.specs.Words.{HasNoFault, Describes};
ghost use Rattle.commands.specs.Reading.{GivesNetwork, IsFaultOfFile, IsFaultOfNet, TellsOf};

use crate::fault::Fault;
use crate::host::{FileFault, Host};
use netdesc::{DescFault, read};
use network::Network;
use std::alloc::Global;
use std::str;

/// Reads these bytes as a text.
fn text_in(bytes: &[u8]) -> Result<&str, Fault<'static>>
    ensures text { IfOk result (λ text. text.now ≡ bytes.now) }
    ensures fault { IfErr result (TellsOf bytes.now) }
{
    match str::from_utf8(bytes) {
        Ok(text) => Ok(text),
        Err(_) => Err(Fault::Description(DescFault::Syntax)),
    }
}

/// Reads the network that these bytes describe.
pub fn network_in(alloc: Global, bytes: &[u8]) -> Result<Network, Fault<'static>>
    ensures sound { OnOk result (HasNoFault bytes.now) }
    ensures network { IfOk result (Describes bytes.now) }
    ensures fault { IfErr result (TellsOf bytes.now) }
{
    Ok(read(alloc, text_in(bytes)?)?)
}

/// Reads the bytes of the file with this path.
pub fn bytes_of<'a, H: Host>(
    alloc: Global,
    path: &'a str,
    host: &mut H,
) -> Result<Vec<u8>, Fault<'a>>
    ensures bytes { IfOk result (λ bytes. H.outside.gives host.old path.entry.now (Some bytes.items)) }
    ensures fault { IfErr result (IsFaultOfFile H.outside path.entry.now host.old host.new) }
    ensures host { OnOk result (host.new ≡ host.old) }
    ensures output { H.outside.output host.new ≡ H.outside.output host.old }
    ensures quiet { H.outside.errors host.new ≡ H.outside.errors host.old }
{
    match host.read(alloc, path) {
        Ok(bytes) => Ok(bytes),
        Err(FileFault::Device) => Err(Fault::CannotRead(path)),
        Err(FileFault::OutOfMemory) => Err(Fault::OutOfMemory),
    }
}

/// Reads the network that the file with this path describes.
pub fn network_of<'a, H: Host>(
    alloc: Global,
    path: &'a str,
    host: &mut H,
) -> Result<Network, Fault<'a>>
    ensures network { IfOk result (GivesNetwork (H.outside.gives host.old path.entry.now)) }
    ensures fault { IfErr result (IsFaultOfNet H.outside path.entry.now host.old host.new) }
    ensures host { OnOk result (host.new ≡ host.old) }
    ensures output { H.outside.output host.new ≡ H.outside.output host.old }
{
    let bytes = bytes_of(alloc, path, host)?;
    network_in(alloc, bytes.as_slice())
}
