//! Which virtual links have the one stream of a plain row.
ghost use Rattle.std.specs.Prelude.{◌≡◌, ◌==◌};
ghost use Rattle.std.specs.List.{list_any};
ghost use Rattle.traffic.specs.Plain.{is_plain, is_plain_stream};

use network::{Network, Stream, Timing, VirtualLink, VlStream};
use vlink::VlId;

/// Whether a stream is one frame of one size in each period.
fn is_plain_stream(stream: &Stream) -> bool
    ensures { result ≡ is_plain_stream stream.now }
{
    let is_periodic = match stream.timing {
        Timing::Periodic => true,
        Timing::Sporadic => false,
    };
    stream.frames == 1 && stream.last_size.is_none() && is_periodic
}

/// Whether one of these rows is of the virtual link with this number.
fn has_row(rows: &[VlStream], id: VlId) -> bool
    ensures { result ≡ list_any (λ s. s.vl.0 == id.0) rows.now }
{
    for row in rows {
        if row.vl.0 == id.0 {
            return true;
        }
    }
    false
}

/// Whether a virtual link is offered one frame of one size in each period, and nothing else.
pub fn is_plain(network: &Network, link: &VirtualLink) -> bool
    ensures { result ≡ is_plain network.now link.now }
{
    is_plain_stream(&link.own) && !has_row(network.streams(), link.id)
}
