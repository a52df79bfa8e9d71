//! The test actor alone: in a one-thread run of one message, and as it handles messages and undoes them.
ghost use Rattle.std.specs.Prelude.{◌<◌};

use super::player::{actor, letter, tell, tell_number};
use crate::Summing;
use actor_run::{SimFault, Unwatched, run_actors};
use process_queues::ProcFault;
use reverse::{act_and_undo, actor_law, actor_rules_law};
use std::alloc::Global;
use vlink::{Body, Message, Time};

// Writes how many rows the run of an actor with this counter gives, or why it is given up. It ends at 4 ns, so that nothing is sent.
pub(crate) fn tell_run(alloc: Global, told: &mut String, counter: u64) -> Result<(), ProcFault> {
    let mut actor = Summing::new(Time::of_known(4));
    actor.counter = counter;
    match rows(alloc, actor) {
        Ok(rows) => Ok(tell_number(told, rows as u64)),
        Err(SimFault::OutOfMemory) => Err(ProcFault::OutOfMemory),
        Err(SimFault::Exhausted) => Ok(tell(told, "exhausted ")),
    }
}

// Returns how many rows the run of this actor gives, with one message offered at 0 ns.
fn rows(alloc: Global, actor: Summing) -> Result<usize, SimFault>
    requires { actor.until < 5 }
{
    actor_rules_law::<Summing>();
    actor_law::<Summing>();
    let offer = Message {
        time: Time::default(),
        receiver: 0,
        sender: 1,
        number: 0,
        body: Body::PortFree { port: 0 },
    };
    let mut actors = Vec::new(alloc);
    actors.push(actor)?;
    let rows = run_actors(alloc, &mut actors, &[offer], &mut Unwatched)?;
    Ok(rows.len())
}

// Writes how many answers three messages get, and the sum and the counter of the actor once they are undone.
pub(crate) fn tell_back(alloc: Global, told: &mut String) -> Result<(), ProcFault> {
    let mut actor = actor(0);
    let mut answers = Vec::new(alloc);
    act_and_undo(&mut actor, &[letter("10").message; 3], &mut answers)?;
    tell_number(told, answers.len() as u64);
    tell_number(told, actor.sum);
    tell_number(told, actor.counter);
    Ok(())
}
