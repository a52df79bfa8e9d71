//! The derived order of messages is the one of the definitions.
ghost use Rattle.std.specs.Prelude.{◌≡◌, ◌<◌};
ghost use Rattle.std.specs.Cmp.{IsTotalOrder};
ghost use Rattle.std.specs.declared.cmp.Ordering.TheVariants.{Less, Equal};
ghost use Rattle.virtual_time.specs.Law.{IsOrder};
ghost use Rattle.vlink.specs.declared.frame.Net.{Net};
ghost use Rattle.vlink.specs.declared.frame.Frame.{Frame};
ghost use Rattle.vlink.specs.declared.message.Body.{Body};
ghost use Rattle.vlink.specs.declared.message.Message.{Message};
ghost use Rattle.vlink.specs.Order.{net_cmp, frame_cmp, body_cmp, message_cmp, message_order};

use crate::frame::{Frame, Net};
use crate::message::{Body, Message};
use std::cmp::Ordering;

/// The order of messages that `cmp` computes is `message_cmp`, the order written out: by time, receiver, sender, number and body. The order
/// is total and exact (messages that compare equal are the same message), and time decides first.
pub fn message_order_law()
    ensures written { (a b : Message) → ⟦<Message as Ord>⟧.cmp a b ≡ message_cmp a b }
    ensures total { IsTotalOrder message_cmp }
    ensures exact { (a b : Message) → message_cmp a b ≡ Equal → a ≡ b }
    ensures by_time { (a b : Message) → a.time < b.time → message_cmp a b ≡ Less }
{
    total_order_law::<Message>();
    body_order_law();
}

/// The order of messages meets what the laws of virtual time require of an order.
pub fn order_law()
    ensures { IsOrder message_order }
{
    message_order_law();
}

/// Compares two messages as `cmp` does. Only messages of one moment are compared whole; most pairs are of two moments and need no call.
#[inline(always)]
pub fn compare(a: &Message, b: &Message) -> Ordering
    ensures derived { result ≡ ⟦<Message as Ord>⟧.cmp a.now b.now }
{
    message_order_law();
    let (first, second) = (a.time.ns(), b.time.ns());
    if first == second {
        return compare_whole(a, b);
    }
    if first < second {
        Ordering::Less
    } else {
        Ordering::Greater
    }
}

/// Compares two messages field by field. It stays a call of its own, so that `compare` is short enough to be inlined.
#[inline(never)]
fn compare_whole(a: &Message, b: &Message) -> Ordering
    ensures derived { result ≡ ⟦<Message as Ord>⟧.cmp a.now b.now }
{
    a.cmp(b)
}

/// The derived order of bodies is the order written out.
fn body_order_law()
    ensures { (b c : Body) → ⟦<Body as Ord>⟧.cmp b c ≡ body_cmp b c }
{
    frame_order_law();
}

/// The derived order of frames is the order written out.
fn frame_order_law()
    ensures { (f g : Frame) → ⟦<Frame as Ord>⟧.cmp f g ≡ frame_cmp f g }
{
    net_order_law();
}

/// The derived order of networks is the order written out.
fn net_order_law()
    ensures { (a b : Net) → ⟦<Net as Ord>⟧.cmp a b ≡ net_cmp a b }
{}

/// The order of a type is total.
fn total_order_law<T: Ord>()
    ensures { IsTotalOrder T.cmp }
{}
