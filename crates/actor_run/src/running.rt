//! The run: one message after another.
ghost use Rattle.std.specs.Prelude.{◌≡◌, [], List, ℕ, suc, true, false, ◌<◌, ◌≤◌, ◌+◌, ◌++◌, ◌⊎◌, All, length, map, slice_get, Some, Ok, Err, OnOk, OnErr, IfOk, IfErr, IfSome, IfNone};
ghost use Rattle.std.proofs.Math.ListN.{set};
ghost use Rattle.vlink.specs.declared.time.TheConstants.{GREATEST_NS};
ghost use Rattle.vlink.specs.Numbering.{greatest_number};
ghost use Rattle.vlink.specs.Letters.{Row};
ghost use Rattle.virtual_time.specs.Law.{rows_of, one};
ghost use Rattle.reverse.specs.Rules.{rules_of};
ghost use Rattle.actor_run.specs.declared.fault.SimFault.TheVariants.{OutOfMemory, Exhausted};
ghost use Rattle.actor_run.specs.Running.{StandsAt, IsExhaustedAt, HasNumbersFrom, IsCutOffAt, IsRunning, AtEach, IsWholeRun, AreOnTheWay, CanRun, OfEach};
ghost use Rattle.actor_run.specs.Load.{load};
ghost use Rattle.reverse.specs.declared.sends.TheConstants.{MOST_SENT};

use crate::fault::SimFault;
use crate::recorder::{AllRows, Recorder, record};
use crate::waiting::Waiting;
use crate::watch::{Watch, show_events};
use reverse::{Actor, Outbound, actor_rules_law};
use std::alloc::Global;
use vlink::{GREATEST_NS, Message, Row, Time};

/// What an actor sends is later than its cause, and not after the greatest moment.
fn limits_law<A: Actor>(actor: &A)
    ensures placed { A.is_placed actor.now }
    ensures end { A.end actor.now ≤ GREATEST_NS }
{
    let _number = actor.id();
    let _end = actor.until();
}

/// The receiver handles the message, if it has numbers left for all that it can send; then `out` has what it sends and notes. Returns
/// whether it had them.
#[inline(always)]
pub(crate) fn act<A: Actor>(actors: &mut [A], message: &Message, out: &mut Outbound) -> bool
    requires { message.now.receiver < length actors.old }
    ensures messages { result ≡ true → (s : A) → slice_get actors.old message.now.receiver ≡ Some s →
        out.new.messages ≡ (A.plain.out s message.now).messages.items }
    ensures notes { result ≡ true → (s : A) → slice_get actors.old message.now.receiver ≡ Some s →
        out.new.notes ≡ (A.plain.out s message.now).notes.items }
    ensures state { result ≡ true → (s : A) → slice_get actors.old message.now.receiver ≡ Some s →
        actors.new ≡ set actors.old message.now.receiver (A.plain.after s message.now) }
    ensures later { result ≡ true → All (λ m. message.now.time < m.time) out.new.messages }
    ensures in_limits { result ≡ true → All (λ m. m.time ≤ GREATEST_NS) out.new.messages }
    ensures unchanged { result ≡ false → actors.new ≡ actors.old }
    ensures exhausted { result ≡ false → (s : A) → slice_get actors.old message.now.receiver ≡ Some s → greatest_number < A.plain.counter s + MOST_SENT }
    ensures numbers { result ≡ true → (s : A) → slice_get actors.old message.now.receiver ≡ Some s → A.plain.counter s + MOST_SENT ≤ greatest_number }
{
    let actor = &mut actors[usize::from(message.receiver)];
    if !actor.has_numbers() {
        return false;
    }
    limits_law(actor);
    let _record = actor.handle(message, out);
    true
}

/// The receiver of the first waiting message, if any, handles it: what it sends waits, and `recorder` takes a row of each note. `out` is
/// room for what it sends and notes, and `moment` becomes the moment of the message. Returns whether a message waited.
#[inline(always)]
fn handle_first<A: Actor, R: Recorder>(
    actors: &mut [A],
    waiting: &mut Waiting,
    recorder: &mut R,
    out: &mut Outbound,
    moment: &mut Time,
) -> Result<bool, SimFault>
    requires { (rows : List Row) × R.has_taken recorder.old rows × IsRunning (rules_of A.plain) actors.old waiting.old rows }
    ensures handled { result ≡ Ok true → (rows : List Row) → R.has_taken recorder.old rows → AtEach (rules_of A.plain) actors.old waiting.old rows
        (λ f n. (later : List Row) × R.has_taken recorder.new later × StandsAt f (suc n) actors.new waiting.new later) }
    ensures smaller { result ≡ Ok true → load GREATEST_NS waiting.new < load GREATEST_NS waiting.old }
    ensures over { result ≡ Ok false → (rows : List Row) → R.has_taken recorder.old rows → AtEach (rules_of A.plain) actors.old waiting.old rows
        (λ f n. R.has_taken recorder.new rows × StandsAt f n actors.new waiting.new rows × ((one f n).waiting ≡ [])) }
    ensures purpose { OnOk result (R.purpose recorder.new ≡ R.purpose recorder.old) }
    ensures exhausted { result ≡ Err Exhausted → (rows : List Row) → R.has_taken recorder.old rows →
        AtEach (rules_of A.plain) actors.old waiting.old rows IsExhaustedAt }
    ensures used_up { (rows : List Row) → R.has_taken recorder.old rows → AtEach (rules_of A.plain) actors.old waiting.old rows
        (λ f n. IsExhaustedAt f n → result ≡ Err Exhausted) }
    ensures memory { result ≡ Err OutOfMemory → (rows : List Row) → R.has_taken recorder.old rows →
        AtEach (rules_of A.plain) actors.old waiting.old rows (λ f n. IsCutOffAt f n actors.new) }
    ensures left { OnErr result ((rows : List Row) → R.has_taken recorder.old rows → AtEach (rules_of A.plain) actors.old waiting.old rows
        (λ f n. AreOnTheWay f actors.new)) }
{
    let Some(message) = waiting.pop() else {
        return Ok(false);
    };
    *moment = message.time;
    if !act(actors, &message, out) {
        return Err(SimFault::Exhausted);
    }
    waiting.push_all(out.messages(), message.time)?;
    record(recorder, &message, out.notes())?;
    Ok(true)
}

/// Runs a simulation of these actors, where actor p is process p, from where it stands: the receiver of the first waiting message handles
/// it, until none waits. `recorder` takes a row for each note, in the order in which the messages are handled. `watch` is shown how far the
/// run is, once in 65,536 events and at the end of a run that is not given up.
///
/// `OutOfMemory` comes only if memory was refused, and `Exhausted` exactly if the actor that is next does not have enough numbers left.
/// Either leaves the actors in the states of the run after some number of events.
///
/// The compiler inlines all that one event does into this function.
#[inline(never)]
pub fn handle_all<A: Actor, R: Recorder, W: Watch>(
    actors: &mut [A],
    waiting: &mut Waiting,
    recorder: &mut R,
    watch: &mut W,
) -> Result<(), SimFault>
    requires { (rows : List Row) × R.has_taken recorder.old rows × IsRunning (rules_of A.plain) actors.old waiting.old rows }
    ensures whole { OnOk result ((rows : List Row) → R.has_taken recorder.old rows → AtEach (rules_of A.plain) actors.old waiting.old rows
        (λ f n. (later : List Row) × R.has_taken recorder.new later × IsWholeRun f later actors.new)) }
    ensures purpose { OnOk result (R.purpose recorder.new ≡ R.purpose recorder.old) }
    ensures exhausted { result ≡ Err Exhausted → (rows : List Row) → R.has_taken recorder.old rows →
        AtEach (rules_of A.plain) actors.old waiting.old rows (λ f n. (k : ℕ) × IsExhaustedAt f k) }
    ensures numbers { OnOk result ((rows : List Row) → R.has_taken recorder.old rows → AtEach (rules_of A.plain) actors.old waiting.old rows
        HasNumbersFrom) }
    ensures memory { result ≡ Err OutOfMemory → (rows : List Row) → R.has_taken recorder.old rows →
        AtEach (rules_of A.plain) actors.old waiting.old rows (λ f n. (k : ℕ) × IsCutOffAt f k actors.new) }
    ensures left { OnErr result ((rows : List Row) → R.has_taken recorder.old rows → AtEach (rules_of A.plain) actors.old waiting.old rows
        (λ f n. AreOnTheWay f actors.new)) }
    ensures watched { W.becomes watch.old watch.new }
{
    let mut out = Outbound::new(0, Time::default(), 0);
    let mut moment = Time::default();
    let mut unseen = 0;
    'events: while handle_first(actors, waiting, recorder, &mut out, &mut moment)? {
        unseen = show_events(watch, moment, unseen, 1);
    }
    watch.look(moment, unseen);
    Ok(())
}

/// Runs the simulation of these actors, where actor p is process p, from these offers on: the receiver of the first waiting message handles
/// it, until none waits. Returns a row for each note, in the order in which the messages were handled. The order of messages is the derived
/// one: by time in ns, receiver, sender, number and body (profile). `watch` is shown how far the run is, as by `handle_all`.
///
/// `OutOfMemory` comes only if memory was refused, and `Exhausted` exactly if the actor that is next does not have enough numbers left.
/// Either leaves the actors in the states of the run after some number of events.
pub fn run_actors<A: Actor, W: Watch>(
    alloc: Global,
    actors: &mut [A],
    offers: &[Message],
    watch: &mut W,
) -> Result<Vec<Row>, SimFault>
    requires { CanRun (rules_of A.plain) actors.old offers.now }
    ensures whole { IfOk result (λ rows. OfEach (rules_of A.plain) actors.old offers.now (λ f. IsWholeRun f rows.items actors.new)) }
    ensures exhausted { result ≡ Err Exhausted → OfEach (rules_of A.plain) actors.old offers.now (λ f. (n : ℕ) × IsExhaustedAt f n) }
    ensures numbers { OnOk result (OfEach (rules_of A.plain) actors.old offers.now (λ f. HasNumbersFrom f 0)) }
    ensures memory { result ≡ Err OutOfMemory → OfEach (rules_of A.plain) actors.old offers.now
        (λ f. (actors.new ≡ actors.old) ⊎ ((n : ℕ) × IsCutOffAt f n actors.new)) }
    ensures left { OnErr result (OfEach (rules_of A.plain) actors.old offers.now (λ f. AreOnTheWay f actors.new)) }
    ensures watched { W.becomes watch.old watch.new }
{
    let mut waiting = Waiting::with_offers(alloc, offers, actors.len())?;
    let mut all = AllRows::none(alloc);
    handle_all(actors, &mut waiting, &mut all, watch)?;
    Ok(all.rows)
}
