//! A process that runs ahead and rolls back. A done message that is tallied once is not in the map: it leaves the map when it is handled,
//! and a commit changes no map.
ghost use Rattle.std.specs.Prelude.{◌≡◌, ◌≢◌, false, pos, ◌+ℤ◌, ◌+◌, ◌<◌, ◌≤◌, ◌^◌, ◌-◌, ◌↔◌, [], ◌∷◌, ◌++◌, ℕ, length, map, min, take, drop, All, IsTrue, IsOk, OnOk, OnErr, IfOk, IfErr, slice_get};
ghost use Rattle.std.specs.Option.{option_map};
ghost use Rattle.std.specs.VecDeque.{deque_len, deque_capacity};
ghost use Rattle.vlink.specs.declared.message.Message.{Message};
ghost use Rattle.vlink.specs.Numbering.{greatest_number};
ghost use Rattle.virtual_time.specs.Law.{lowest, Part, opened, delivered, next_of, floor_of};
ghost use Rattle.reverse.specs.Rules.{rules_of};
ghost use Rattle.vlink.specs.Order.{message_order};
ghost use Rattle.antimessages.specs.Counting.{signed_count};
ghost use Rattle.antimessages.specs.Mailing.{letters_for};
ghost use Rattle.process_queues.specs.declared.fault.ProcFault.TheVariants.{OutOfMemory};
ghost use Rattle.process_queues.specs.Queues.{AtEachPart, StandsFor, Does, rows_there, delivered_all, next_in, state_in};
ghost use Rattle.reverse.specs.declared.sends.TheConstants.{MOST_SENT};

use crate::fault::ProcFault;
use crate::past::Past;
use antimessages::{Mail, Outbox, Tally};
use reverse::{Actor, actor_rules_law};
use std::alloc::Global;
use std::collections::VecDeque;
use std::marker::Model;
use vlink::{Letter, Message, Row, Time, earlier};

/// A process that runs ahead of the others, and rolls back if a letter comes late.
///
/// Nothing of the opening state is kept, and an actor has no `Clone`: a rollback to a saved copy of the opening state does not compile. A
/// rollback uses the records alone. A record is `Copy`: one that contains a whole node, which holds memory, does not compile.
#[derive(Drop)]
pub struct Process<R: Actor> {
    pub(crate) past: Past<R>,
    /// How many rows of committed events have left, and how many are still here.
    pub(crate) left: usize,
    pub(crate) sealed: usize,
    /// How many events are committed.
    pub(crate) committed: u64,
    /// The signed counts of the messages, minus 1 for each done event: a done message that is tallied once has no count here.
    pub(crate) tally: Tally,
    /// The next message to handle, if any. It is searched once, and kept until something changes it.
    pub(crate) next: Option<Message>,
    pub(crate) tray: VecDeque<Letter>,
    pub(crate) outbox: Outbox,
}

impl<R: Actor> Model for Process<R> {
    ghost use Rattle.std.specs.Prelude.{◌-◌, ◌^◌};
    ghost use Rattle.std.specs.VecDeque.{deque_len, deque_capacity};
    ghost use Rattle.reverse.specs.Rules.{rules_of};
    ghost use Rattle.process_queues.specs.Queues.{InHand, IsStanding, with_done};

    ghost Value = { InHand R R.Record };

    ghost view = { λ p. record {
      queues = record {
        past = p.past;
        left = p.left;
        sealed = p.sealed;
        committed = p.committed;
        tally = with_done p.tally p.past.done;
        tray = p.tray.items;
        outbox = p.outbox.letters;
      };
      room = deque_capacity p.tray - deque_len p.tray;
      committed_room = 2 ^ 64 - 1 - p.committed;
    } };

    ghost invariant = { λ p. IsStanding (rules_of R.plain) R.is_value p.next (record {
      past = p.past;
      left = p.left;
      sealed = p.sealed;
      committed = p.committed;
      tally = with_done p.tally p.past.done;
      tray = p.tray.items;
      outbox = p.outbox.letters;
    }) };
}

impl<R: Actor> Process<R> {
    /// Makes a process that has done nothing, with this actor in its opening state. It takes no memory yet, so it succeeds.
    pub fn new(alloc: Global, actor: R) -> Result<Self, ProcFault>
        ensures stands { IfOk result (λ process. StandsFor (rules_of R.plain) R.is_value actor (opened actor) process.queues) }
        ensures left { IfOk result (λ process. process.queues.left ≡ 0) }
        ensures succeeds { IsOk result }
        ensures memory { IfErr result (λ fault. fault ≡ OutOfMemory) }
    {
        Ok(Process {
            past: Past::new(alloc, actor),
            left: 0,
            sealed: 0,
            committed: 0,
            tally: Tally::new(alloc),
            next: None,
            tray: VecDeque::new(alloc),
            outbox: Outbox::new(alloc),
        })
    }

    /// A process represents a part of a process that opened in some state. What other clauses state of such a part holds for some opening
    /// state.
    pub fn stands_law(&self)
        ensures { (opening : R) × (part : Part Message R) × StandsFor (rules_of R.plain) R.is_value opening part self.now.queues }
    {
        let _tray = &self.tray;
    }

    /// Returns the signed count of a message: the number of its plus letters that arrived, minus the number of its minus letters. The
    /// letter of a committed event does not count any more.
    pub fn count(&self, message: &Message) -> i128
        ensures { AtEachPart (rules_of R.plain) R.is_value self.now.queues (λ opening part. result ≡ signed_count message_order message.now part.tally) }
    {
        actor_rules_law::<R>();
        count_with(&self.tally, message, self.past.has_done(message))
    }

    /// Returns the moment of the oldest done event, if any.
    pub fn oldest(&self) -> Option<Time>
        ensures { AtEachPart (rules_of R.plain) R.is_value self.now.queues (λ opening part. result ≡ option_map (λ m. m.time) (slice_get part.done 0)) }
    {
        self.past.oldest_time()
    }

    /// Returns the number of committed events.
    pub fn committed(&self) -> u64
        ensures { AtEachPart (rules_of R.plain) R.is_value self.now.queues (λ opening part. result ≡ length part.committed) }
    {
        self.committed
    }

    /// Returns the rows of the committed events, without those that have left, in their order.
    pub fn sealed(&self) -> &[Row]
        ensures { AtEachPart (rules_of R.plain) R.is_value self.now.queues
            (λ opening part. result.now ≡ rows_there (rules_of R.plain) opening part self.now.queues) }
    {
        &self.past.rows()[..self.sealed]
    }

    /// Returns how many rows of committed events have left. They are the oldest ones.
    pub fn rows_left(&self) -> u64
        ensures { result ≡ self.now.queues.left }
    {
        self.left as u64
    }

    /// Lets the oldest rows of committed events leave: `count` of them, or all that are still here if these are fewer. Returns how many
    /// left. None leaves beyond the greatest number that `rows_left` can return. Takes no memory.
    pub fn let_rows_go(&mut self, count: usize) -> usize
        ensures stands { Does (rules_of R.plain) R.is_value (λ opening part. part) self.old.queues self.new.queues }
        ensures left { self.new.queues.left ≡ self.old.queues.left + result }
        ensures count { result ≡ min (min count self.old.queues.sealed) (2 ^ 64 - 1 - self.old.queues.left) }
        ensures queues { self.new.queues ≡ record self.old.queues {
          past = record self.old.queues.past { rows = drop result self.old.queues.past.rows };
          left = self.old.queues.left + result;
          sealed = self.old.queues.sealed - result;
        } }
        ensures room { self.new.room ≡ self.old.room }
        ensures committed_room { self.new.committed_room ≡ self.old.committed_room }
    {
        let gone = count.min(self.sealed).min(usize::MAX - self.left);
        self.past.forget_rows(gone);
        self.left += gone;
        self.sealed -= gone;
        gone
    }

    /// Returns the letters that wait to be posted, in order.
    pub fn outbox(&self) -> &[Letter]
        ensures { result.now ≡ self.now.queues.outbox }
    {
        self.outbox.letters()
    }

    /// Whether each letter of the outbox is for one of the processes 0 to `processes` - 1. Then `post` can be called with their mail.
    pub fn goes_within(&self, processes: usize) -> bool
        ensures { IsTrue result ↔ All (λ letter. letter.message.receiver < processes) self.now.queues.outbox }
    {
        self.outbox.goes_within(processes)
    }

    /// Returns how many letters were taken from the mail and have not arrived.
    pub fn tray_len(&self) -> usize
        ensures value { result ≡ length self.now.queues.tray }
        ensures small { length self.now.queues.tray < 2 ^ 63 }
    {
        self.tray.len()
    }

    /// Returns the next message to handle: the first present one that is not done, if any.
    pub fn next(&self) -> Option<Message>
        ensures next { result ≡ next_in self.now.queues }
        ensures stands { AtEachPart (rules_of R.plain) R.is_value self.now.queues (λ opening part. result ≡ next_of message_order part) }
    {
        actor_rules_law::<R>();
        self.next
    }

    /// Whether the actor has enough numbers left for what one event can send. If not, `run` is refused for that reason.
    pub fn has_numbers(&self) -> bool
        ensures { IsTrue result ↔ (R.plain.counter (state_in self.now.queues) + MOST_SENT ≤ greatest_number) }
    {
        self.past.actor().has_numbers()
    }

    /// Returns a moment such that nothing in hand is earlier, as a post sets it: the least time of the tray's letters and of the present
    /// messages that are not done, or the moment after the end.
    pub fn floor(&self) -> Time
        ensures { AtEachPart (rules_of R.plain) R.is_value self.now.queues
            (λ opening part. result ≡ floor_of message_order (R.end (state_in self.now.queues)) part) }
    {
        floor_of_tray(&self.tray, self.floor_of_messages())
    }

    /// Returns the least time of the present messages that are not done, or the moment after the end.
    fn floor_of_messages(&self) -> Time
        ensures { AtEachPart (rules_of R.plain) R.is_value self.now.queues
            (λ opening part. result ≡ floor_of message_order (R.end (state_in self.now.queues)) (record part { tray = [] })) }
    {
        actor_rules_law::<R>();
        let end = Time::new(self.past.actor().until().ns() + 1).unwrap();
        match self.next() {
            Some(message) => earlier(message.time, end),
            None => end,
        }
    }

    /// Makes room for `letters` letters: as long as no other call comes between, this many calls of `deliver` take no memory.
    pub fn reserve_letters(&mut self, letters: usize) -> Result<(), ProcFault>
        ensures room { OnOk result (letters ≤ self.new.room) }
        ensures same { self.new.queues ≡ self.old.queues }
        ensures reserved { OnErr result (self.old.room < letters) }
        ensures memory { IfErr result (λ fault. fault ≡ OutOfMemory) }
    {
        self.tray.reserve(letters)?;
        Ok(())
    }

    /// Puts the letter at the back of the tray.
    pub fn deliver(&mut self, letter: Letter) -> Result<(), ProcFault>
        ensures delivered { OnOk result (Does (rules_of R.plain) R.is_value (λ opening. delivered letter) self.old.queues self.new.queues) }
        ensures tray { OnOk result (self.new.queues ≡ record self.old.queues { tray = self.old.queues.tray ++ letter ∷ [] }) }
        ensures room { OnOk result (self.old.room ≤ self.new.room + 1) }
        ensures unchanged { OnErr result (self.new.queues ≡ self.old.queues) }
        ensures reserved { OnErr result (self.old.room ≡ 0) }
        ensures memory { IfErr result (λ fault. fault ≡ OutOfMemory) }
    {
        self.tray.reserve(1)?;
        self.tray.push_back_reserved(letter);
        Ok(())
    }

    /// Moves the first letters for process `process` from the mail to the back of the tray, one after another: `most` of them, or all if
    /// they are fewer. Returns how many.
    pub fn collect(
        &mut self,
        mail: &mut Mail,
        process: u16,
        most: usize,
    ) -> Result<usize, ProcFault>
        ensures delivered { IfOk result (λ count. Does (rules_of R.plain) R.is_value
            (λ opening. delivered_all (take count (letters_for process mail.old))) self.old.queues self.new.queues) }
        ensures count { IfOk result (λ count. count ≡ min most (length (letters_for process mail.old))) }
        ensures queues { IfOk result (λ count. self.new.queues ≡ record self.old.queues { tray = self.old.queues.tray ++ take count (letters_for process mail.old) }) }
        ensures left { IfOk result (λ count. letters_for process mail.new ≡ drop count (letters_for process mail.old)) }
        ensures others { (q : ℕ) → q ≢ process → letters_for q mail.new ≡ letters_for q mail.old }
        ensures processes { length mail.new ≡ length mail.old }
        ensures unchanged { OnErr result (self.new.queues ≡ self.old.queues) }
        ensures mail_unchanged { OnErr result (mail.new ≡ mail.old) }
        ensures reserved { OnErr result (self.old.room < min most (length (letters_for process mail.old))) }
        ensures memory { IfErr result (λ fault. fault ≡ OutOfMemory) }
    {
        let count = mail.count(process).min(most);
        self.tray.reserve(count)?;
        collect_letters::<R>(&mut self.tray, mail, process, count);
        Ok(count)
    }
}

/// Moves the first `count` letters for this process from the mail to the back of the tray. The room for them was made before. If these are
/// all letters and the tray is empty, none is copied.
fn collect_letters<R: Actor>(
    tray: &mut VecDeque<Letter>,
    mail: &mut Mail,
    process: u16,
    count: usize,
)
    requires room { deque_len tray.old + count ≤ deque_capacity tray.old }
    requires enough { count ≤ length (letters_for process mail.old) }
    ensures tray { tray.new.items ≡ tray.old.items ++ take count (letters_for process mail.old) }
    ensures left { letters_for process mail.new ≡ drop count (letters_for process mail.old) }
    ensures others { (q : ℕ) → q ≢ process → letters_for q mail.new ≡ letters_for q mail.old }
    ensures processes { length mail.new ≡ length mail.old }
{
    if tray.is_empty() && count == mail.count(process) {
        mail.take_all(process, tray);
        return;
    }
    for taken in 0..count {
        take_letter::<R>(tray, mail, process);
    }
}

/// Moves the first letter for this process from the mail to the back of the tray. The room for it was made before. The type parameter is
/// there for the borrow checker.
fn take_letter<R: Actor>(tray: &mut VecDeque<Letter>, mail: &mut Mail, process: u16)
    requires room { deque_len tray.old < deque_capacity tray.old }
    requires some { 0 < length (letters_for process mail.old) }
    ensures tray { tray.new.items ≡ tray.old.items ++ take 1 (letters_for process mail.old) }
    ensures length { deque_len tray.new ≡ deque_len tray.old + 1 }
    ensures capacity { deque_capacity tray.new ≡ deque_capacity tray.old }
    ensures left { letters_for process mail.new ≡ drop 1 (letters_for process mail.old) }
    ensures others { (q : ℕ) → q ≢ process → letters_for q mail.new ≡ letters_for q mail.old }
    ensures processes { length mail.new ≡ length mail.old }
{
    match mail.take(process, 0) {
        Some(letter) => tray.push_back_reserved(letter),
        None => {}
    }
}

/// Returns the signed count of a message. The tally does not contain the done events; `is_done` states whether the message is done.
fn count_with(tally: &Tally, message: &Message, is_done: bool) -> i128
    ensures done { IsTrue is_done → result ≡ signed_count message_order message.now tally.now +ℤ pos 1 }
    ensures not_done { is_done ≡ false → result ≡ signed_count message_order message.now tally.now }
{
    let tallied = tally.count(message);
    if is_done { tallied + 1 } else { tallied }
}

/// Returns the least time of these letters, or the given moment if that is earlier.
fn floor_of_tray(tray: &VecDeque<Letter>, moment: Time) -> Time
    ensures { result ≡ lowest moment (map (λ l. l.message.time) tray.now.items) }
{
    let mut floor = moment;
    for place in 0..tray.len() {
        floor = earlier(tray[place].message.time, floor);
    }
    floor
}
