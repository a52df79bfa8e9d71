//! Commits the oldest done events of a group.
ghost use Rattle.std.specs.Prelude.{◌≡◌, ◌+◌, ◌<◌, ◌≤◌, ◌⊎◌, ◌++◌, true, false, All, IfOk, IfSome, Some, OnOk, OnErr, length, take, drop, slice_get, vec_len, vec_capacity};
ghost use Rattle.vlink.specs.Order.{message_order};
ghost use Rattle.vlink.specs.declared.message.Message.{Message};
ghost use Rattle.group_queues.specs.DoneEvents.{messages_of, noted_in, sent_in};
ghost use Rattle.group_queues.specs.Flow.{IsFirst};
ghost use Rattle.group_queues.specs.Sealing.{CanCommit, Stays, rows_in, words_of};

use crate::block::{Word, Words};
use crate::done_events::{DoneEvents, precedes};
use crate::handing::time_or;
use crate::letters::Letters;
use crate::rows::Rows;
use crate::trail::Trail;
use std::alloc::AllocError;
use vlink::{Message, Row, Time, order_law};

/// The oldest done events, as many as can be committed.
#[derive(Clone, Copy)]
struct Oldest {
    count: usize,
    /// How many messages they sent in all.
    sent: usize,
    /// How many rows they gave.
    noted: usize,
}

impl<K: Copy> DoneEvents<K> {
    /// Forgets the oldest events. Their rows go to the end of `taken`, which has room for them.
    fn forget(&mut self, oldest: Oldest, taken: &mut Vec<Row>)
        requires enough { oldest.count ≤ length self.old.events }
        requires sent { oldest.sent ≡ sent_in (take oldest.count self.old.events) }
        requires noted { oldest.noted ≡ noted_in (take oldest.count self.old.events) }
        requires room { vec_len taken.old + oldest.noted ≤ vec_capacity taken.old }
        ensures events { self.new.events ≡ drop oldest.count self.old.events }
        ensures rows { taken.new.items ≡ taken.old.items ++ rows_in (take oldest.count self.old.events) }
    {
        self.events.forget(oldest.count);
        self.sends.forget(oldest.sent);
        move_first(&mut self.rows, oldest.noted, taken);
    }
}

impl Letters {
    /// Whether a done event with this message can be committed below the moment. `first` is the first message of the queue, if any, and
    /// `limit` the earlier of both moments.
    #[inline(always)]
    fn can_commit(
        &self,
        message: &Message,
        moment: Time,
        first: &Option<Message>,
        limit: Time,
    ) -> bool
        requires first { IsFirst first.now self.now.queue }
        requires limit { (limit ≤ moment) × IfSome first.now (λ f. limit ≤ f.time) }
        ensures yes { result ≡ true → CanCommit moment self.now message.now }
        ensures no { result ≡ false → Stays moment self.now message.now }
    {
        order_law();
        if !is_early(message, moment, first, limit) {
            return false;
        }
        self.extra.is_zero(message)
    }

    /// Commits the oldest done events, one after another, up to one that cannot be committed below the moment, in ns. They are forgotten, and
    /// their rows go to the end of `sealed`. `first` is the first message of the queue, if any. Returns how many it committed. A refusal
    /// changes nothing.
    pub fn commit_early<K: Copy>(
        &mut self,
        done: &mut DoneEvents<K>,
        sealed: &mut Rows,
        moment: Time,
        first: &Option<Message>,
    ) -> Result<usize, AllocError>
        requires { IsFirst first.now self.old.queue }
        ensures early { IfOk result (λ count. All (CanCommit moment self.old) (take count (messages_of done.old.events))) }
        ensures left { IfOk result (λ count. IfSome (slice_get (messages_of done.old.events) count) (Stays moment self.old)) }
        ensures events { IfOk result (λ count. done.new.events ≡ drop count done.old.events) }
        ensures rows { IfOk result (λ count. sealed.new ≡ record sealed.old { all = sealed.old.all ++ rows_in (take count done.old.events) }) }
        ensures told { IfOk result (λ count. self.new ≡ record self.old { words = self.old.words ++ words_of (take count done.old.events); room = self.new.room }) }
        ensures events_stay { OnErr result (done.new.events ≡ done.old.events) }
        ensures rows_stay { OnErr result (sealed.new ≡ sealed.old) }
        ensures letters_stay { OnErr result (self.new ≡ record self.old { room = self.new.room }) }
    {
        let oldest = self.count_early(done, moment, first);
        self.commit_first(done, sealed, oldest)?;
        Ok(oldest.count)
    }

    /// Returns the oldest done events that can be committed below the moment, one after another.
    fn count_early<K: Copy>(
        &self,
        done: &DoneEvents<K>,
        moment: Time,
        first: &Option<Message>,
    ) -> Oldest
        requires { IsFirst first.now self.now.queue }
        ensures within { result.count ≤ length done.now.events }
        ensures early { All (CanCommit moment self.now) (take result.count (messages_of done.now.events)) }
        ensures left { IfSome (slice_get (messages_of done.now.events) result.count) (Stays moment self.now) }
        ensures sent { result.sent ≡ sent_in (take result.count done.now.events) }
        ensures noted { result.noted ≡ noted_in (take result.count done.now.events) }
    {
        let events = done.events.as_slice();
        let limit = time_or(first, moment);
        // No sum is greater than the whole, which these two numbers are.
        let _most = (done.sends.len(), done.rows.len());
        let mut sent = 0;
        let mut noted = 0;
        for count in 0..events.len() {
            let event = &events[count];
            if !self.can_commit(&event.message, moment, first, limit) {
                return Oldest { count, sent, noted };
            }
            sent += event.sent as usize;
            noted += event.noted as usize;
        }
        Oldest {
            count: events.len(),
            sent,
            noted,
        }
    }

    /// Commits the oldest done events: they are forgotten, and their rows go to the end of `sealed`. A refusal changes nothing.
    fn commit_first<K: Copy>(
        &mut self,
        done: &mut DoneEvents<K>,
        sealed: &mut Rows,
        oldest: Oldest,
    ) -> Result<(), AllocError>
        requires enough { oldest.count ≤ length done.old.events }
        requires sent { oldest.sent ≡ sent_in (take oldest.count done.old.events) }
        requires noted { oldest.noted ≡ noted_in (take oldest.count done.old.events) }
        ensures events { OnOk result (done.new.events ≡ drop oldest.count done.old.events) }
        ensures rows { OnOk result (sealed.new ≡ record sealed.old { all = sealed.old.all ++ rows_in (take oldest.count done.old.events) }) }
        ensures told { OnOk result (self.new ≡ record self.old { words = self.old.words ++ words_of (take oldest.count done.old.events); room = self.new.room }) }
        ensures events_stay { OnErr result (done.new.events ≡ done.old.events) }
        ensures rows_stay { OnErr result (sealed.new ≡ sealed.old) }
        ensures letters_stay { OnErr result (self.new ≡ record self.old { room = self.new.room }) }
    {
        self.room = 0;
        self.block.reserve(oldest.count)?;
        sealed.there.reserve(oldest.noted)?;
        tell_committed(done, &mut self.block, oldest.count);
        done.forget(oldest, &mut sealed.there);
        done.close_up();
        Ok(())
    }
}

/// Whether the message is earlier than the moment, and comes before `first`, if that exists. Mostly the comparison with `limit`, the
/// earlier of both moments, decides.
#[inline(always)]
fn is_early(message: &Message, moment: Time, first: &Option<Message>, limit: Time) -> bool
    requires { (limit ≤ moment) × IfSome first.now (λ f. limit ≤ f.time) }
    ensures early { result ≡ true → message.now.time < moment }
    ensures before { result ≡ true → IfSome first.now (λ f. message_order.less message.now f ≡ true) }
    ensures no { result ≡ false → (moment ≤ message.now.time) ⊎ ((f : Message) × (first.now ≡ Some f) × (message_order.less message.now f ≡ false)) }
{
    order_law();
    if message.time < limit {
        return true;
    }
    message.time < moment && comes_before(message, first)
}

/// Whether the message comes before `first`, or `first` is none.
#[inline(always)]
fn comes_before(message: &Message, first: &Option<Message>) -> bool
    ensures yes { result ≡ true → IfSome first.now (λ f. message_order.less message.now f ≡ true) }
    ensures no { result ≡ false → (f : Message) × (first.now ≡ Some f) × (message_order.less message.now f ≡ false) }
{
    match first {
        Some(first) => precedes(message, first),
        None => true,
    }
}

/// Adds the commits of the oldest `count` events to the block, which has room for them.
fn tell_committed<K: Copy>(done: &DoneEvents<K>, block: &mut Words, count: usize)
    requires enough { count ≤ length done.now.events }
    requires room { count ≤ block.old.room }
    ensures words { block.new.words ≡ block.old.words ++ words_of (take count done.now.events) }
    ensures keeps { block.new.keeps ≡ block.old.keeps }
{
    let events = done.events.as_slice();
    for place in 0..count {
        block.push_reserved(Word::Committed {
            process: events[place].message.receiver,
        });
    }
}

/// Moves the first `count` items to the end of `taken`, which has room for them. The type parameter is there for the borrow checker.
#[inline(always)]
fn move_first<T: Copy + Drop>(items: &mut Trail<T>, count: usize, taken: &mut Vec<T>)
    requires enough { count ≤ length items.old.items }
    requires room { vec_len taken.old + count ≤ vec_capacity taken.old }
    ensures items { items.new.items ≡ drop count items.old.items }
    ensures left { items.new.room ≡ items.old.room }
    ensures taken { taken.new.items ≡ taken.old.items ++ take count items.old.items }
{
    for place in 0..count {
        taken.push_reserved(*items.item(place));
    }
    items.forget(count);
}
