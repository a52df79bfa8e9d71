//! Several events, handled and then undone.
ghost use Rattle.std.specs.Prelude.{◌≡◌, ◌++◌, OnOk};
ghost use Rattle.reverse.specs.Answers.{answers_of, answers_within};

use crate::actor::Actor;
use crate::reversible::Reversible;
use crate::sends::Sends;
use std::alloc::AllocError;
use vlink::Message;

/// Handles the events in turn and puts their answers behind those in `answers`. Then it undoes the events, the newest first, so that the
/// element is as it was. An error means that an answer found no memory; the events behind it are not handled. It serves to look at an
/// element's answers. The call stack grows with the number of events.
pub fn forth_and_back<R: Reversible>(
    element: &mut R,
    events: &[R::Event],
    answers: &mut Vec<R::Out>,
) -> Result<(), AllocError>
    requires { (s : R) → R.can_apply s }
    ensures back { element.new ≡ element.old }
    ensures answers { OnOk result (answers.new.items ≡ answers.old.items ++ answers_of R.plain element.old events.now) }
{
    let [first, rest @ ..] = events else {
        return Ok(());
    };
    let (answer, kept) = element.apply(first);
    let done = match answers.push(answer) {
        Ok(()) => forth_and_back(element, rest, answers),
        Err(_) => Err(AllocError),
    };
    element.undo(first, kept);
    done
}

/// Does the same for an actor, as long as the actor has numbers for what it sends.
pub fn act_and_undo<R: Actor>(
    actor: &mut R,
    messages: &[Message],
    answers: &mut Vec<Sends>,
) -> Result<(), AllocError>
    ensures back { actor.new ≡ actor.old }
    ensures answers { OnOk result (answers.new.items ≡ answers.old.items ++ answers_within R.plain actor.old messages.now) }
{
    let [first, rest @ ..] = messages else {
        return Ok(());
    };
    if !actor.has_numbers() {
        return Ok(());
    }
    let (answer, kept) = actor.apply(first);
    let done = match answers.push(answer) {
        Ok(()) => act_and_undo(actor, rest, answers),
        Err(_) => Err(AllocError),
    };
    actor.undo(first, kept);
    done
}
