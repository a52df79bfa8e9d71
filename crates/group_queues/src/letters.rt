//! What waits for a group, and what it sent to others.
ghost use Rattle.std.specs.Prelude.{◌≡◌, ◌+◌, ◌<◌, ◌≤◌, [], ◌∷◌, ◌++◌, false, All, Contains, OnOk, IfOk, IfSome, IfNone, IsPermutation};
ghost use Rattle.vlink.specs.declared.message.Message.{Message};
ghost use Rattle.vlink.specs.Letters.{Letter};
ghost use Rattle.reverse.specs.Rules.{is_before};
ghost use Rattle.group_queues.specs.Flow.{TookFirst};
ghost use Rattle.group_queues.specs.Waiting.{placed};

use crate::block::{Word, Words};
use crate::queue::Queue;
use antimessages::Tally;
use std::alloc::{AllocError, Global};
use std::collections::VecDeque;
use std::marker::Model;
use vlink::{Letter, Message};

/// The number of letters and words for which room is made at a time, besides those asked for.
const AHEAD: usize = 256;

/// What waits for the members of a group, what they sent to others, and what was done.
#[derive(Drop)]
pub struct Letters {
    /// What is present and not done. It can contain a message several times.
    pub(crate) queue: Queue,
    /// The signed counts, minus 1 for each message of the queue and each done event: nearly always none.
    pub(crate) extra: Tally,
    /// Letters to members that were taken, from the mail of the run or of the group, and have not arrived.
    pub(crate) tray: VecDeque<Letter>,
    /// Letters to others that were posted.
    pub(crate) abroad: Vec<Letter>,
    /// What was done since the last entry.
    pub(crate) block: Words,
    /// The number of letters and words for which each of these lists has room at least: so one comparison suffices.
    pub(crate) room: usize,
}

impl Model for Letters {
    ghost use Rattle.std.specs.Prelude.{◌+◌, ◌≤◌, vec_len, vec_capacity};
    ghost use Rattle.std.specs.VecDeque.{deque_len, deque_capacity};
    ghost use Rattle.reverse.specs.Rules.{is_before};
    ghost use Rattle.group_queues.specs.Flow.{Flow};

    ghost Value = { Flow };

    ghost view = { λ l. record {
      queue = l.queue.messages;
      extra = l.extra;
      tray = l.tray.items;
      abroad = l.abroad.items;
      words = l.block.words;
      keeps = l.block.keeps;
      room = l.room;
    } };

    ghost invariant = { λ l. (l.room ≤ l.queue.room) × (l.room + deque_len l.tray ≤ deque_capacity l.tray) × (l.room + vec_len l.abroad ≤ vec_capacity l.abroad) × (l.room ≤ l.block.room) };
}

impl Letters {
    /// Makes the letters of a group with nothing but these offers.
    pub fn of_offers(alloc: Global, offers: Vec<Message>, keeps: bool) -> Result<Self, AllocError>
        ensures queue { IfOk result (λ letters. IsPermutation offers.items letters.queue) }
        ensures extra { IfOk result (λ letters. letters.extra ≡ []) }
        ensures tray { IfOk result (λ letters. letters.tray ≡ []) }
        ensures abroad { IfOk result (λ letters. letters.abroad ≡ []) }
        ensures words { IfOk result (λ letters. letters.words ≡ []) }
        ensures keeps { IfOk result (λ letters. letters.keeps ≡ keeps) }
    {
        Ok(Letters {
            queue: Queue::of_offers(alloc, offers)?,
            extra: Tally::new(alloc),
            tray: VecDeque::new(alloc),
            abroad: Vec::new(alloc),
            block: Words::new(alloc, keeps),
            room: 0,
        })
    }

    /// Makes room for `more` letters and words, wherever they go. Mostly it exists.
    #[inline(always)]
    pub fn reserve(&mut self, more: usize) -> Result<(), AllocError>
        ensures room { OnOk result (more ≤ self.new.room) }
        ensures same { self.new ≡ record self.old { room = self.new.room } }
    {
        if more <= self.room {
            return Ok(());
        }
        self.grow(more.saturating_add(AHEAD))
    }

    /// Makes room for `more` letters and words in each of the lists.
    #[inline(never)]
    fn grow(&mut self, more: usize) -> Result<(), AllocError>
        ensures room { OnOk result (more ≤ self.new.room) }
        ensures same { self.new ≡ record self.old { room = self.new.room } }
    {
        self.room = 0;
        self.queue.reserve(more)?;
        self.tray.reserve(more)?;
        self.abroad.reserve(more)?;
        self.block.reserve(more)?;
        self.room = more;
        Ok(())
    }

    /// Returns the first message, if any.
    #[inline(always)]
    pub fn first(&mut self) -> Option<Message>
        ensures room { self.old.room ≤ self.new.room }
        ensures unchanged { self.new ≡ record self.old { room = self.new.room } }
        ensures among { IfSome result (Contains self.old.queue) }
        ensures first { IfSome result (λ m. All (λ x. is_before x m ≡ false) self.old.queue) }
        ensures none { IfNone result (self.old.queue ≡ []) }
    {
        self.queue.first()
    }

    /// Removes and returns the first message of the queue, if any.
    #[inline(always)]
    pub fn pop(&mut self) -> Option<Message>
        ensures taken { IfSome result (λ m. TookFirst m self.old self.new) }
        ensures none { IfNone result (self.old.queue ≡ []) }
        ensures empty { IfNone result (self.new.queue ≡ []) }
        ensures others { self.new ≡ record self.old { queue = self.new.queue; room = self.new.room } }
        ensures room { self.old.room ≤ self.new.room }
    {
        self.queue.pop()
    }

    /// Removes the first message, which is this one, from the queue, since it is handled. The room for its word was made before.
    #[inline(always)]
    pub fn take_first(&mut self, message: &Message)
        requires among { Contains self.old.queue message.now }
        requires first { All (λ x. is_before x message.now ≡ false) self.old.queue }
        ensures taken { IsPermutation self.old.queue (message.now ∷ self.new.queue) }
        ensures room { self.old.room ≤ self.new.room }
        ensures others { self.new ≡ record self.old { queue = self.new.queue; room = self.new.room } }
    {
        self.queue.take_first(message);
    }

    /// Puts a message of the group back into the queue, which has room for it.
    pub fn wait_again(&mut self, message: &Message)
        requires { 0 < self.old.room }
        ensures waits { IsPermutation (message.now ∷ self.old.queue) self.new.queue }
        ensures placed { self.new.queue ≡ placed message.now self.old.queue }
        ensures others { self.new ≡ record self.old { queue = self.new.queue; room = self.new.room } }
        ensures room { self.old.room ≤ self.new.room + 1 }
    {
        self.queue.push_reserved(message);
        self.room -= 1;
    }

    /// Adds one word. The room for it was made before.
    #[inline(always)]
    pub fn tell(&mut self, did: Word)
        requires { 0 < self.old.room }
        ensures told { self.new ≡ record self.old { words = self.old.words ++ did ∷ []; room = self.new.room } }
        ensures room { self.old.room ≤ self.new.room + 1 }
    {
        self.block.push_reserved(did);
        self.room -= 1;
    }
}
