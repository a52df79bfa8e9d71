//! Which sizes the frames of a virtual link have.
ghost use Rattle.std.specs.Prelude.{◌≡◌, IfOk, Some, max, min, option_map, slice_get, slice_index_or};
ghost use Rattle.network_bounds.specs.Sizes.{AreLeast, LEAST, all_sizes, link_sizes, one_size, sizes_in, sizes_of_stream, with_sizes};

use network::{Network, Stream, VirtualLink};
use std::alloc::{AllocError, Global};
use vlink::FrameSize;

/// The least and the greatest size of the frames of a virtual link.
#[derive(Clone, Copy)]
pub struct FrameSizes {
    pub least: FrameSize,
    pub greatest: FrameSize,
}

/// Returns the lesser size.
fn lesser(a: FrameSize, b: FrameSize) -> FrameSize
    ensures { result ≡ min a b }
{
    if b.bytes() < a.bytes() { b } else { a }
}

/// Returns the greater size.
fn greater(a: FrameSize, b: FrameSize) -> FrameSize
    ensures { result ≡ max a b }
{
    if a.bytes() < b.bytes() { b } else { a }
}

impl FrameSizes {
    /// Returns the sizes of frames that have this one.
    fn one(size: FrameSize) -> Self
        ensures { result ≡ one_size size }
    {
        FrameSizes {
            least: size,
            greatest: size,
        }
    }

    /// Returns the sizes of both.
    fn with(self, other: Self) -> Self
        ensures { result ≡ with_sizes self other }
    {
        FrameSizes {
            least: lesser(self.least, other.least),
            greatest: greater(self.greatest, other.greatest),
        }
    }

    /// Returns the sizes of the frames of a stream.
    fn of(stream: &Stream) -> Self
        ensures { result ≡ sizes_of_stream stream.now }
    {
        let last = FrameSizes::one(match stream.last_size {
            Some(size) => size,
            None => stream.size,
        });
        if stream.frames <= 1 {
            last
        } else {
            FrameSizes::one(stream.size).with(last)
        }
    }
}

/// Returns the sizes of the frames that all streams of a virtual link offer.
fn sizes(network: &Network, link: &VirtualLink) -> FrameSizes
    ensures { result ≡ sizes_in network.now link.now }
{
    let mut found = FrameSizes::of(&link.own);
    for row in network.streams() {
        if row.vl.0 == link.id.0 {
            found = found.with(FrameSizes::of(&row.stream));
        }
    }
    found
}

/// Which frames bounds count of other end systems.
#[derive(Clone, Copy)]
pub enum Senders {
    /// Those that the description states.
    AsStated,
    /// Any that their accounts let pass, whatever these end systems send.
    ByContract,
}

/// The sizes of the frames of a virtual link that bounds count.
#[derive(Clone, Copy)]
pub struct LinkSizes {
    /// Those that its end system sends.
    pub sent: FrameSizes,
    /// Those that its account passes at a switch.
    pub passed: FrameSizes,
}

impl LinkSizes {
    /// Returns those of a virtual link.
    fn of(network: &Network, senders: Senders, link: &VirtualLink) -> Self
        ensures { result ≡ link_sizes senders network.now link.now }
    {
        let offered = sizes(network, link);
        let passed = offered;
        match senders {
            Senders::AsStated => LinkSizes {
                sent: offered,
                passed,
            },
            Senders::ByContract => LinkSizes {
                sent: FrameSizes {
                    least: offered.least,
                    greatest: greater(link.smax, offered.greatest),
                },
                passed: FrameSizes {
                    least: FrameSize::default(),
                    greatest: link.smax,
                },
            },
        }
    }
}

/// Returns the sizes of the frames of each virtual link, by its place.
pub fn all_sizes(
    alloc: Global,
    network: &Network,
    senders: Senders,
) -> Result<Vec<LinkSizes>, AllocError>
    ensures all { IfOk result (λ found. found.items ≡ all_sizes senders network.now) }
    ensures least { IfOk result (λ found. AreLeast network.now found.items) }
{
    let mut found = Vec::new(alloc);
    for vl in 0..network.vl_count() {
        let link = network.virtual_link(vl);
        found.push(LinkSizes::of(network, senders, &link))?;
    }
    Ok(found)
}

/// Returns the sizes of the frames of the virtual link at a place, of these by place.
pub fn sizes_at(known: &[LinkSizes], vl: usize) -> LinkSizes
    ensures { result ≡ slice_index_or known.now vl (record { sent = one_size LEAST; passed = one_size LEAST }) }
{
    match known.get(vl) {
        Some(found) => *found,
        None => {
            LinkSizes {
                sent: FrameSizes::one(FrameSize::default()),
                passed: FrameSizes::one(FrameSize::default()),
            }
        }
    }
}

/// Returns the least frame of the virtual link at a place.
pub fn least_at(network: &Network, known: &[LinkSizes], vl: usize, link: &VirtualLink) -> FrameSize
    requires known { AreLeast network.now known.now }
    requires link { option_map (λ vl. vl.link) (slice_get network.now.vls vl) ≡ Some link.now }
    ensures { result ≡ (sizes_in network.now link.now).least }
{
    match known.get(vl) {
        Some(found) => found.sent.least,
        None => sizes(network, link).least,
    }
}
