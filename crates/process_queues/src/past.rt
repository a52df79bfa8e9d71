//! The done events of a process. One queue holds what was sent, so a rollback takes messages from its back and need not ask the actor
//! again. Rows of done events stand behind those of committed ones, so a commit copies none.
ghost use Rattle.std.specs.Prelude.{◌≡◌, ◌+◌, ◌<◌, ◌≤◌, ◌-◌, List, [], ◌∷◌, ◌++◌, length, map, drop, reverse, vec_len, vec_capacity, OnOk, OnErr, slice_get};
ghost use Rattle.std.specs.Option.{option_map, option_copied};
ghost use Rattle.std.specs.VecDeque.{deque_len, deque_capacity};
ghost use Rattle.vlink.specs.Order.{message_order};
ghost use Rattle.vlink.specs.declared.message.Message.{Message};
ghost use Rattle.vlink.specs.Numbering.{greatest_number};
ghost use Rattle.virtual_time.specs.Law.{rows_of, plus_of};
ghost use Rattle.reverse.specs.Rules.{rules_of};
ghost use Rattle.antimessages.specs.Counting.{is_after, newest_of};
ghost use Rattle.process_queues.specs.Past.{Past, Rows, IsPastOf, handled_past, FirstDone};
ghost use Rattle.reverse.specs.declared.sends.TheConstants.{MOST_SENT};

use antimessages::{OutOfMemory, Outbox, rewind};
use process_steps::{Event, is_before};
use reverse::{Actor, MOST_SENT, Outbound, actor_rules_law};
use std::alloc::Global;
use std::collections::VecDeque;
use std::marker::Model;
use vlink::{Letter, Message, Note, Row, Sign, Time};

/// The actor with the events that it has done and not committed, the oldest first, and all that they sent, in order. The rows are those of
/// the committed events, without the oldest ones that were dropped, and then those of the done events.
#[derive(Drop)]
pub(crate) struct Past<R: Actor> {
    pub(crate) actor: R,
    pub(crate) done: VecDeque<Event<R::Record>>,
    pub(crate) sends: VecDeque<Message>,
    pub(crate) rows: Vec<Row>,
}

impl<R: Actor> Model for Past<R> {
    ghost use Rattle.std.specs.Prelude.{map};
    ghost use Rattle.process_queues.specs.Past.{Past};

    ghost Value = { Past R R.Record };

    ghost view = { λ p. record { state = p.actor; done = p.done.items; sends = p.sends.items; rows = p.rows.items } };
}

impl<R: Actor> Past<R> {
    /// Makes a past without events and rows.
    pub(crate) fn new(alloc: Global, actor: R) -> Self
        ensures { result ≡ record { state = actor; done = []; sends = []; rows = [] } }
    {
        Past {
            actor,
            done: VecDeque::new(alloc),
            sends: VecDeque::new(alloc),
            rows: Vec::new(alloc),
        }
    }

    /// Returns the actor.
    pub(crate) fn actor(&self) -> &R
        ensures { result.now ≡ self.now.state }
    {
        &self.actor
    }

    /// Returns the rows of the committed events, without those that were dropped, and of the done events.
    pub(crate) fn rows(&self) -> &[Row]
        ensures { result.now ≡ self.now.rows }
    {
        &self.rows
    }

    /// Drops the oldest `count` rows.
    pub(crate) fn forget_rows(&mut self, count: usize)
        requires { count ≤ length self.old.rows }
        ensures { self.new ≡ record self.old { rows = drop count self.old.rows } }
    {
        forget_first_rows(&mut self.rows, count);
    }

    /// Returns the oldest done event, if any.
    pub(crate) fn oldest(&self) -> Option<&Event<R::Record>>
        ensures { option_copied result ≡ slice_get self.now.done 0 }
    {
        self.done.front()
    }

    /// Returns the moment of the oldest done event, if any.
    pub(crate) fn oldest_time(&self) -> Option<Time>
        ensures { result ≡ option_map (λ e. e.message.time) (slice_get self.now.done 0) }
    {
        match self.done.front() {
            Some(event) => Some(event.message.time),
            None => None,
        }
    }

    /// Returns the done events, the oldest at the front.
    pub(crate) fn done_events(&self) -> &VecDeque<Event<R::Record>>
        ensures { result.now.items ≡ self.now.done }
    {
        &self.done
    }

    /// Returns the number of done events.
    pub(crate) fn done_len(&self) -> usize
        ensures { result ≡ length self.now.done }
    {
        self.done.len()
    }

    /// Returns the message of the newest done event, if any.
    pub(crate) fn newest(&self) -> Option<&Message>
        ensures { option_copied result ≡ newest_of (map (λ e. e.message) self.now.done) }
    {
        match self.done.back() {
            Some(event) => Some(&event.message),
            None => None,
        }
    }

    /// Whether the message comes after the newest done event, or no event is done.
    pub(crate) fn is_before(&self, message: &Message) -> bool
        ensures { result ≡ is_after message_order (newest_of (map (λ e. e.message) self.now.done)) message.now }
    {
        match self.newest() {
            Some(newest) => is_before(newest, message),
            None => true,
        }
    }

    /// The actor handles the message; what it sends goes to the outbox. `out` is room for what it sends and notes. A refusal changes nothing.
    pub(crate) fn handle(
        &mut self,
        message: &Message,
        out: &mut Outbound,
        outbox: &mut Outbox,
    ) -> Result<(), OutOfMemory>
        requires { R.plain.counter self.old.state + MOST_SENT ≤ greatest_number }
        ensures handled { OnOk result (self.new ≡ handled_past (rules_of R.plain) self.old message.now) }
        ensures sent { OnOk result (outbox.new.letters ≡ outbox.old.letters ++ map plus_of ((rules_of R.plain).sends self.old.state message.now)) }
        ensures valid { OnOk result (R.is_value self.old.state message.now) }
        ensures unchanged { OnErr result (self.new ≡ self.old) }
        ensures kept { OnErr result (outbox.new.letters ≡ outbox.old.letters) }
    {
        make_room(&mut self.done, &mut self.sends, &mut self.rows, outbox)?;
        // The order of these fields matters: what was sent and noted is known once the message is handled.
        self.done.push_back_reserved(Event {
            message: *message,
            kept: self.actor.handle(message, out),
            sent: out.messages().len() as u8,
            noted: out.notes().len() as u8,
        });
        send_all(&mut self.sends, outbox, out.messages());
        note_all(&mut self.rows, message, out.notes());
        Ok(())
    }

    /// Forgets the oldest event, which must exist. Its rows stay, behind those of the events before it. Returns their number.
    pub(crate) fn forget_oldest(&mut self) -> u8
        requires { FirstDone (rules_of R.plain) R.is_value self.old }
        ensures forgotten { (start : R) (ms : List Message) (e : Message) (earlier : Rows) →
            IsPastOf (rules_of R.plain) R.is_value start (e ∷ ms) earlier self.old →
            IsPastOf (rules_of R.plain) R.is_value ((rules_of R.plain).after start e) ms
            (earlier ++ rows_of message_order e ((rules_of R.plain).notes start e)) self.new }
        ensures noted { (start : R) (ms : List Message) (e : Message) (earlier : Rows) →
            IsPastOf (rules_of R.plain) R.is_value start (e ∷ ms) earlier self.old →
            result ≡ length ((rules_of R.plain).notes start e) }
        ensures state { self.new.state ≡ self.old.state }
    {
        let Some(event) = self.done.pop_front() else {
            return 0;
        };
        forget_first(&mut self.sends, usize::from(event.sent));
        rewind(&mut self.done);
        rewind(&mut self.sends);
        event.noted
    }
}

/// Makes room for one more event: for its stored data, and for all that one event can send and note.
fn make_room<K: Copy>(
    done: &mut VecDeque<Event<K>>,
    sends: &mut VecDeque<Message>,
    rows: &mut Vec<Row>,
    outbox: &mut Outbox,
) -> Result<(), OutOfMemory>
    ensures done { OnOk result (deque_len done.new + 1 ≤ deque_capacity done.new) }
    ensures sends { OnOk result (deque_len sends.new + MOST_SENT ≤ deque_capacity sends.new) }
    ensures rows { OnOk result (vec_len rows.new + 2 ≤ vec_capacity rows.new) }
    ensures outbox { OnOk result (MOST_SENT ≤ outbox.new.room) }
    ensures same_done { done.new.items ≡ done.old.items }
    ensures same_sends { sends.new.items ≡ sends.old.items }
    ensures same_rows { rows.new.items ≡ rows.old.items }
    ensures same_outbox { outbox.new.letters ≡ outbox.old.letters }
{
    done.reserve(1)?;
    sends.reserve(MOST_SENT)?;
    rows.reserve(2)?;
    outbox.reserve(MOST_SENT)?;
    Ok(())
}

/// Puts the messages behind those that were sent, and as letters into the outbox. The room for them was made before.
fn send_all(sends: &mut VecDeque<Message>, outbox: &mut Outbox, messages: &[Message])
    requires room { deque_len sends.old + length messages.now ≤ deque_capacity sends.old }
    requires outbox_room { length messages.now ≤ outbox.old.room }
    ensures sends { sends.new.items ≡ sends.old.items ++ messages.now }
    ensures outbox { outbox.new.letters ≡ outbox.old.letters ++ map plus_of messages.now }
{
    for message in messages {
        sends.push_back_reserved(*message);
        let _room = outbox.push(Letter {
            message: *message,
            sign: Sign::Plus,
        });
    }
}

/// Puts the notes of the message's event behind the rows. The room for them was made before.
fn note_all(rows: &mut Vec<Row>, message: &Message, notes: &[Note])
    requires { vec_len rows.old + length notes.now ≤ vec_capacity rows.old }
    ensures { rows.new.items ≡ rows.old.items ++ rows_of message_order message.now notes.now }
{
    for note in notes {
        rows.push_reserved(Row {
            message: *message,
            place: message.receiver,
            note: *note,
        });
    }
}

/// Drops the first `count` rows.
fn forget_first_rows(rows: &mut Vec<Row>, count: usize)
    requires { count ≤ vec_len rows.old }
    ensures { rows.new.items ≡ drop count rows.old.items }
{
    rows.drain(..count);
}

/// Drops the first `count` messages that were sent.
fn forget_first(sends: &mut VecDeque<Message>, count: usize)
    requires { count ≤ deque_len sends.old }
    ensures { sends.new.items ≡ drop count sends.old.items }
{
    for forgotten in 0..count {
        let _message = sends.pop_front();
    }
}
