//! The virtual links of a node in their opening states.
ghost use Rattle.std.specs.Prelude.{◌≡◌, All, map, IfOk};
ghost use Rattle.network.specs.Words.{IsLinkInLimits};
ghost use Rattle.nodes.specs.rules.Finding.{IsRising};
ghost use Rattle.nodes.specs.rules.Opening.{regulator_of, receiving_of, account_of, measure_of, port_priority};
ghost use Rattle.nodes.specs.laws.Making.{number_met, end_met, source_met, reception_met, ports_among, transit_met};

use super::meeting::Meeting;
use crate::finding::place_of;
use crate::outputs::Outputs;
use crate::receiving::Receiving;
use crate::reception::Reception;
use crate::source::Source;
use crate::transit::Transit;
use crate::vl_end::VlEnd;
use bag_regulator::BagRegulator;
use integrity::Integrity;
use network::{GREATEST_PORTS, Policing, VirtualLink};
use policer::{Account, Measure};
use redundancy::Redundancy;
use std::alloc::{AllocError, Global};
use vlink::VlId;

/// Makes the end of a virtual link at an end system: port 0 leads to network A and port 1 to network B.
fn end_of(met: &Meeting) -> VlEnd
    ensures { result ≡ end_met met.now }
{
    VlEnd {
        vl: met.link.id,
        a: met.ports[0],
        b: met.ports[1],
    }
}

/// Makes the regulator of a virtual link, to which nothing was offered.
fn regulator_of(alloc: Global, link: &VirtualLink) -> Result<BagRegulator, AllocError>
    ensures { IfOk result (λ regulator. regulator ≡ regulator_of link.now) }
{
    let bag_ns = u32::from(link.bag_ms) * 1_000_000;
    BagRegulator::new(alloc, bag_ns, u32::from(link.depth), link.sub)
}

/// Makes the virtual links that an end system sends.
pub fn sources_of(alloc: Global, meetings: &[Meeting]) -> Result<Vec<Source>, AllocError>
    ensures { IfOk result (λ sources. sources.items ≡ map source_met meetings.now) }
{
    let mut sources = Vec::new(alloc);
    for met in meetings {
        sources.push(Source {
            end: end_of(met),
            regulator: regulator_of(alloc, &met.link)?,
        })?;
    }
    Ok(sources)
}

/// Makes the checks of the frames of a virtual link, of which none was received.
fn receiving_of(link: &VirtualLink) -> Receiving
    requires { IsLinkInLimits link.now }
    ensures { result ≡ receiving_of link.now }
{
    Receiving {
        a: Integrity::new(),
        b: Integrity::new(),
        redundancy: Redundancy::new(u64::from(link.skew_max_ns)).unwrap(),
    }
}

/// Makes the virtual links that an end system receives.
pub fn receptions_of(alloc: Global, meetings: &[Meeting]) -> Result<Vec<Reception>, AllocError>
    requires { All (λ met. IsLinkInLimits met.link) meetings.now }
    ensures { IfOk result (λ receptions. receptions.items ≡ map reception_met meetings.now) }
{
    let mut receptions = Vec::new(alloc);
    for met in meetings {
        receptions.push(Reception {
            end: end_of(met),
            receiving: receiving_of(&met.link),
        })?;
    }
    Ok(receptions)
}

/// Returns what an account counts, by the key of its virtual link.
fn measure_of(policing: Policing) -> Measure
    ensures { result ≡ measure_of policing }
{
    match policing {
        Policing::Bytes => Measure::Bytes,
        Policing::Frames => Measure::Frames,
    }
}

/// Makes the account of a virtual link, full.
fn account_of(link: &VirtualLink) -> Account
    requires { IsLinkInLimits link.now }
    ensures { result ≡ account_of link.now }
{
    let bag_ns = u64::from(link.bag_ms) * 1_000_000;
    let jitter_ns = u64::from(link.policing_jitter_ns);
    let measure = measure_of(link.policing);
    Account::new(link.smax, bag_ns, jitter_ns, measure).unwrap()
}

/// Returns the list of an output port in which the frames of a virtual link wait.
fn port_priority(priority: network::Priority) -> output_port::Priority
    ensures { result ≡ port_priority priority }
{
    match priority {
        network::Priority::High => output_port::Priority::High,
        network::Priority::Low => output_port::Priority::Low,
    }
}

/// Returns the ports of the virtual link with this number.
fn ports_among(meetings: &[Meeting], vl: VlId) -> [bool; GREATEST_PORTS]
    requires { IsRising (map number_met meetings.now) }
    ensures { result ≡ ports_among meetings.now vl.0 }
{
    match place_of(meetings, vl) {
        Some(place) => meetings[place].ports,
        None => [false; GREATEST_PORTS],
    }
}

/// Makes the virtual links that come in at a switch, each with the ports by which it leaves.
pub fn transits_of(
    alloc: Global,
    arriving: &[Meeting],
    departing: &[Meeting],
) -> Result<Vec<Transit>, AllocError>
    requires rising { IsRising (map number_met departing.now) }
    requires limits { All (λ met. IsLinkInLimits met.link) arriving.now }
    ensures { IfOk result (λ transits. transits.items ≡ map (transit_met departing.now) arriving.now) }
{
    let mut transits = Vec::new(alloc);
    for met in arriving {
        transits.push(Transit {
            vl: met.link.id,
            input: met.first,
            outputs: Outputs::new(ports_among(departing, met.link.id)),
            smax: met.link.smax,
            priority: port_priority(met.link.priority),
            account: account_of(&met.link),
        })?;
    }
    Ok(transits)
}
