//! The run in which some actors run ahead: each of them handles a message when the message is sent.
ghost use Rattle.std.specs.Prelude.{◌≡◌, [], ◌∷◌, List, ℕ, suc, true, false, ◌+◌, ◌<◌, ◌≤◌, All, length, Ok, Err, IfOk, OnOk};
ghost use Rattle.vlink.specs.declared.time.TheConstants.{GREATEST_NS};
ghost use Rattle.vlink.specs.Letters.{Row};
ghost use Rattle.reverse.specs.Rules.{rules_of};
ghost use Rattle.reverse.specs.declared.sends.TheConstants.{MOST_SENT};
ghost use Rattle.runs_ahead.specs.Ahead.{one_ahead};
ghost use Rattle.actor_run.specs.declared.fault.SimFault.TheVariants.{OutOfMemory, Exhausted};
ghost use Rattle.actor_run.specs.Load.{load};
ghost use Rattle.actor_run.specs.Running.{IsExhaustedAt, HasNumbersFrom, IsWholeRun};
ghost use Rattle.actor_run.specs.RunningAhead.{is_marked, StandsAhead, HasRoomAt, IsRunningAhead, AtEachAhead, CanRunAhead, OfEachOpened, HavePassed, IsStuck, AreStuck};

use crate::fault::SimFault;
use crate::recorder::{Recorder, record};
use crate::running::act;
use crate::waiting::Waiting;
use crate::watch::{Watch, show_events};
use reverse::{Actor, Outbound};
use vlink::{Message, Time};

/// Whether the receiver of the message runs ahead.
#[inline(always)]
fn runs_ahead(ahead: &[bool], message: &Message) -> bool
    requires { message.now.receiver < length ahead.now }
    ensures { result ≡ is_marked ahead.now message.now.receiver }
{
    ahead[usize::from(message.receiver)]
}

/// Passes on one message that was sent: an actor that runs ahead handles it, and its answer waits in its place; any other message waits.
/// It was sent at about the moment `now`. `answer` is room for the answer. Returns how many events that was: one, or none.
#[inline(always)]
fn pass_on<A: Actor>(
    actors: &mut [A],
    ahead: &[bool],
    waiting: &mut Waiting,
    message: &Message,
    now: Time,
    answer: &mut Outbound,
) -> Result<u32, SimFault>
    requires marks { length ahead.now ≡ length actors.old }
    requires receiver { message.now.receiver < length actors.old }
    ensures passed { OnOk result (HavePassed (rules_of A.plain) (is_marked ahead.now) actors.old waiting.old (message.now ∷ []) actors.new waiting.new) }
    ensures exhausted { result ≡ Err Exhausted → IsStuck (rules_of A.plain) (is_marked ahead.now) actors.old message.now }
    ensures few { IfOk result (λ events. events ≤ 1) }
{
    if !runs_ahead(ahead, message) {
        waiting.push(message, now)?;
        return Ok(0);
    }
    if !act(actors, message, answer) {
        return Err(SimFault::Exhausted);
    }
    waiting.push_all(answer.messages(), now)?;
    Ok(1)
}

/// Passes on all these messages, one after another, which were sent at the moment `now`. Returns how many events that was.
#[inline(always)]
fn pass_all_on<A: Actor>(
    actors: &mut [A],
    ahead: &[bool],
    waiting: &mut Waiting,
    messages: &[Message],
    now: Time,
    answer: &mut Outbound,
) -> Result<u32, SimFault>
    requires marks { length ahead.now ≡ length actors.old }
    requires receivers { All (λ m. m.receiver < length actors.old) messages.now }
    requires few { length messages.now ≤ MOST_SENT }
    ensures passed { OnOk result (HavePassed (rules_of A.plain) (is_marked ahead.now) actors.old waiting.old messages.now actors.new waiting.new) }
    ensures exhausted { result ≡ Err Exhausted → AreStuck (rules_of A.plain) (is_marked ahead.now) actors.old messages.now }
    ensures few { IfOk result (λ events. events ≤ MOST_SENT) }
{
    let mut events = 0;
    for message in messages {
        events += pass_on(actors, ahead, waiting, message, now, answer)?;
    }
    Ok(events)
}

/// The receiver of the first waiting message, if any, handles it: what it sends is passed on, and `recorder` takes a row of each note. `out`
/// and `answer` are room for what it and an actor that runs ahead send and note. `moment` becomes the moment of the message, and `events` the
/// number of events, with those of actors that run ahead. Returns whether a message waited.
#[inline(always)]
fn handle_next<A: Actor, R: Recorder>(
    actors: &mut [A],
    ahead: &[bool],
    waiting: &mut Waiting,
    recorder: &mut R,
    out: &mut Outbound,
    answer: &mut Outbound,
    moment: &mut Time,
    events: &mut u32,
) -> Result<bool, SimFault>
    requires marks { length ahead.now ≡ length actors.old }
    requires runs { (rows : List Row) × R.has_taken recorder.old rows × IsRunningAhead (rules_of A.plain) (is_marked ahead.now) actors.old waiting.old rows }
    ensures handled { result ≡ Ok true → (rows : List Row) → R.has_taken recorder.old rows → AtEachAhead (rules_of A.plain) (is_marked ahead.now) actors.old waiting.old rows
        (λ f n. (later : List Row) × R.has_taken recorder.new later × StandsAhead f (is_marked ahead.now) (suc n) actors.new waiting.new later × HasRoomAt f (is_marked ahead.now) n) }
    ensures smaller { result ≡ Ok true → load GREATEST_NS waiting.new < load GREATEST_NS waiting.old }
    ensures over { result ≡ Ok false → (rows : List Row) → R.has_taken recorder.old rows → AtEachAhead (rules_of A.plain) (is_marked ahead.now) actors.old waiting.old rows
        (λ f n. R.has_taken recorder.new rows × StandsAhead f (is_marked ahead.now) n actors.new waiting.new rows × ((one_ahead f (is_marked ahead.now) n).waiting ≡ [])) }
    ensures purpose { OnOk result (R.purpose recorder.new ≡ R.purpose recorder.old) }
    ensures exhausted { result ≡ Err Exhausted → (rows : List Row) → R.has_taken recorder.old rows →
        AtEachAhead (rules_of A.plain) (is_marked ahead.now) actors.old waiting.old rows (λ f n. (k : ℕ) × IsExhaustedAt f k) }
    ensures few { result ≡ Ok true → events.new ≤ MOST_SENT + 1 }
{
    let Some(message) = waiting.pop() else {
        return Ok(false);
    };
    *moment = message.time;
    if !act(actors, &message, out) {
        return Err(SimFault::Exhausted);
    }
    let answers = pass_all_on(actors, ahead, waiting, out.messages(), message.time, answer)?;
    record(recorder, &message, out.notes())?;
    *events = answers + 1;
    Ok(true)
}

/// Runs a simulation of these actors, where actor p is process p, from its opening on, as `handle_all` does. An actor that is marked in
/// `ahead` handles each message when the message is sent. So fewer messages wait, and the rows are those of the one-thread run. Each marked
/// actor receives by a channel from one that is not marked, notes nothing, and sends to actors that are not marked: so no message that it
/// handles comes too early.
///
/// `OutOfMemory` comes only if memory was refused, and `Exhausted` only if an actor does not have enough numbers left for what one event can
/// send. After either, actors and waiting messages are of no more use.
///
/// The compiler inlines all that one event does into this function.
#[inline(never)]
pub fn handle_all_ahead<A: Actor, R: Recorder, W: Watch>(
    actors: &mut [A],
    ahead: &[bool],
    waiting: &mut Waiting,
    recorder: &mut R,
    watch: &mut W,
) -> Result<(), SimFault>
    requires marks { length ahead.now ≡ length actors.old }
    requires rows { R.has_taken recorder.old [] }
    requires opens { CanRunAhead (rules_of A.plain) (is_marked ahead.now) actors.old waiting.old }
    ensures whole { OnOk result (OfEachOpened (rules_of A.plain) (is_marked ahead.now) actors.old waiting.old
        (λ f. (rows : List Row) × R.has_taken recorder.new rows × IsWholeRun f rows actors.new)) }
    ensures purpose { OnOk result (R.purpose recorder.new ≡ R.purpose recorder.old) }
    ensures exhausted { result ≡ Err Exhausted → OfEachOpened (rules_of A.plain) (is_marked ahead.now) actors.old waiting.old (λ f. (k : ℕ) × IsExhaustedAt f k) }
    ensures numbers { OnOk result (OfEachOpened (rules_of A.plain) (is_marked ahead.now) actors.old waiting.old (λ f. HasNumbersFrom f 0)) }
    ensures watched { W.becomes watch.old watch.new }
{
    let mut out = Outbound::new(0, Time::default(), 0);
    let mut answer = Outbound::new(0, Time::default(), 0);
    let mut moment = Time::default();
    let mut events = 0;
    let mut unseen = 0;
    'events: while handle_next(
        actors,
        ahead,
        waiting,
        recorder,
        &mut out,
        &mut answer,
        &mut moment,
        &mut events,
    )? {
        unseen = show_events(watch, moment, unseen, events);
    }
    watch.look(moment, unseen);
    Ok(())
}
