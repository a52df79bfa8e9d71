//! Writes the lines of the bounds, cell by cell.
ghost use Rattle.std.specs.Prelude.{◌≡◌, ◌<◌, codes, cond, length, [], OnOk, Ok, Err};
ghost use Rattle.network.specs.Words.{IsLinkInLimits, lines_of};
ghost use Rattle.network_bounds.specs.Said.{line_named, none_line};
ghost use Rattle.network_bounds.specs.Text.{bounds_head, destination_line, port_line};
ghost use Rattle.trace_segments.specs.Words.{Adds};

use crate::ages::Span;
use crate::reason::{Reason, reason_name};
use crate::waits::wait_ns;
use csv::{Error, Writer};
use itoa::Buffer;
use network::{Network, VirtualLink};
use trace_segments::line::push;
use trace_segments::place_name;

/// Appends the first line.
pub fn push_head(out: &mut Writer<Vec<u8>>) -> Result<(), Error>
    ensures { OnOk result (Adds out.old out.new bounds_head) }
{
    push(
        out,
        &[
            "kind".as_bytes(),
            "of".as_bytes(),
            "where".as_bytes(),
            "network_ns".as_bytes(),
            "wait_ns".as_bytes(),
            "bound_ns".as_bytes(),
            "least_ns".as_bytes(),
            "jitter_ns".as_bytes(),
            "skew_ns".as_bytes(),
            "sure".as_bytes(),
            "sure_ns".as_bytes(),
        ],
    )
}

/// Appends the bound of a virtual link at a destination, from how long a frame takes from its release on.
pub fn push_bound(
    out: &mut Writer<Vec<u8>>,
    network: &Network,
    link: &VirtualLink,
    node: usize,
    span: Span,
) -> Result<(), Error>
    requires { IsLinkInLimits link.now }
    ensures { OnOk result (Adds out.old out.new (destination_line network.now link.now node (Ok span))) }
{
    let wait = wait_ns(network, link);
    let bound = span.most.saturating_add(u128::from(wait));
    let none = "".as_bytes();
    let mut number = Buffer::new();
    let mut own = Buffer::new();
    let mut held = Buffer::new();
    let mut whole = Buffer::new();
    let mut least = Buffer::new();
    let mut jitter = Buffer::new();
    push(
        out,
        &[
            "bound".as_bytes(),
            number.format(link.id.0).as_bytes(),
            place_name(network, node).as_bytes(),
            own.format(span.most).as_bytes(),
            held.format(wait).as_bytes(),
            whole.format(bound).as_bytes(),
            least.format(span.least).as_bytes(),
            jitter.format(bound.saturating_sub(span.least)).as_bytes(),
            none,
            none,
            none,
        ],
    )
}

/// Appends why there is no bound of what these two columns name.
fn push_none(out: &mut Writer<Vec<u8>>, of: &str, place: &str, reason: Reason) -> Result<(), Error>
    ensures { OnOk result (Adds out.old out.new (none_line of.now place.now reason)) }
{
    let none = "".as_bytes();
    push(
        out,
        &[
            "none".as_bytes(),
            of.as_bytes(),
            place.as_bytes(),
            reason_name(reason).as_bytes(),
            none,
            none,
            none,
            none,
            none,
            none,
            none,
        ],
    )
}

/// Appends why a virtual link has no bound at a destination.
pub fn push_no_bound(
    out: &mut Writer<Vec<u8>>,
    network: &Network,
    link: &VirtualLink,
    node: usize,
    reason: Reason,
) -> Result<(), Error>
    ensures { OnOk result (Adds out.old out.new (destination_line network.now link.now node (Err reason))) }
{
    let mut number = Buffer::new();
    push_none(
        out,
        number.format(link.id.0),
        place_name(network, node),
        reason,
    )
}

/// Returns yes or no.
fn yes_or_no<'a>(is_so: bool) -> &'a str
    ensures { result.now ≡ cond is_so (codes "yes") (codes "no") }
{
    if is_so { "yes" } else { "no" }
}

/// Appends how many bytes wait at most at the port before a line, and whether the port has room for them.
pub fn push_port(
    out: &mut Writer<Vec<u8>>,
    network: &Network,
    line: usize,
    bytes: u32,
    waiting: u128,
) -> Result<(), Error>
    requires { line < length (lines_of network.now) }
    ensures { OnOk result (Adds out.old out.new (port_line network.now line bytes (Ok waiting))) }
{
    let none = "".as_bytes();
    let mut number = Buffer::new();
    push(
        out,
        &[
            "port".as_bytes(),
            network.line_name(line).as_bytes(),
            none,
            number.format(waiting).as_bytes(),
            yes_or_no(waiting <= u128::from(bytes)).as_bytes(),
            none,
            none,
            none,
            none,
            none,
            none,
        ],
    )
}

/// Appends why a port has no bound.
pub fn push_no_room(
    out: &mut Writer<Vec<u8>>,
    network: &Network,
    line: usize,
    reason: Reason,
) -> Result<(), Error>
    requires { line < length (lines_of network.now) }
    ensures { OnOk result (Adds out.old out.new (none_line (line_named network.now line) [] reason)) }
{
    push_none(out, network.line_name(line), "", reason)
}
