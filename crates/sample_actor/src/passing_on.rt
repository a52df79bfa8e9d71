//! How a message is passed on.
ghost use Rattle.std.specs.Prelude.{◌≡◌, ◌+◌, ◌<◌, ◌++◌, length};
ghost use Rattle.vlink.specs.Numbering.{greatest_number};
ghost use Rattle.sample_actor.specs.Passing.{passed_on};
ghost use Rattle.reverse.specs.declared.sends.TheConstants.{MOST_SENT};

use crate::passing::Passing;
use reverse::Sends;
use vlink::{Body, Message, Time, process_number};

/// The number of processes that receive messages.
const RECEIVERS: u64 = 5;

/// Passes on a message for this moment, unless that is after the end.
pub(crate) fn pass_on(actor: &mut Passing, out: &mut Sends, ns: u64)
    requires room { length out.old.messages.items < MOST_SENT }
    requires number { actor.old.counter < greatest_number }
    ensures messages { out.new.messages.items ≡ out.old.messages.items ++ passed_on actor.old ns }
    ensures notes { out.new.notes ≡ out.old.notes }
    ensures counter { actor.new ≡ record actor.old { counter = actor.old.counter + length (passed_on actor.old ns) } }
{
    let Some(time) = Time::new(ns) else {
        return;
    };
    if time > actor.until {
        return;
    }
    out.messages.push(Message {
        time,
        receiver: process_number((ns % RECEIVERS) as usize),
        sender: u32::from(actor.number),
        number: actor.counter,
        body: Body::PortFree { port: 0 },
    });
    actor.counter += 1;
}
