//! What a group passes to the rest of the run: its block, the letters for others, and the least time that waits for it.
ghost use Rattle.std.specs.Prelude.{◌≡◌, min, [], IfSome, IfNone};
ghost use Rattle.vlink.specs.Order.{message_order};
ghost use Rattle.virtual_time.specs.Law.{lowest, times_of};
ghost use Rattle.group_queues.specs.Flow.{floor_in};

use crate::block::Words;
use crate::letters::Letters;
use std::alloc::Global;
use std::collections::VecDeque;
use std::mem;
use vlink::{Letter, Message, Time, earlier, order_law};

impl Letters {
    /// Returns the words of the block: what was done since it began.
    pub fn block(&self) -> &Words
        ensures words { result.now.words ≡ self.now.words }
        ensures keeps { result.now.keeps ≡ self.now.keeps }
    {
        &self.block
    }

    /// Ends the block and returns its words. The next block begins without words.
    pub fn next_block(&mut self, alloc: Global) -> Words
        ensures words { result.words ≡ self.old.words }
        ensures keeps { result.keeps ≡ self.old.keeps }
        ensures anew { self.new ≡ record self.old { words = []; room = self.new.room } }
    {
        self.room = 0;
        let next = Words::new(alloc, self.block.keeps());
        mem::replace(&mut self.block, next)
    }

    /// Returns the letters for others, in order.
    pub fn letters_abroad(&self) -> &[Letter]
        ensures { result.now ≡ self.now.abroad }
    {
        self.abroad.as_slice()
    }

    /// Removes the letters for others. Their room stays.
    pub fn clear_abroad(&mut self)
        ensures { self.new ≡ record self.old { abroad = []; room = self.new.room } }
    {
        self.abroad.clear();
    }

    /// Returns the least time of the messages of the queue and of the letters in the tray, or `end`, in ns, if that is earlier.
    pub fn floor(&mut self, end: Time) -> Time
        ensures unchanged { self.new ≡ record self.old { room = self.new.room } }
        ensures least { result ≡ floor_in message_order end self.old }
    {
        order_law();
        let first = self.queue.first();
        earliest_in(&self.tray, time_or(&first, end))
    }
}

/// Returns the moment of the message, if it exists, or `end`, whichever is earlier.
#[inline(always)]
pub(crate) fn time_or(message: &Option<Message>, end: Time) -> Time
    ensures some { IfSome message.now (λ m. result ≡ min m.time end) }
    ensures none { IfNone message.now (result ≡ end) }
{
    match message {
        Some(message) => earlier(message.time, end),
        None => end,
    }
}

/// Returns the least time of the letters, or the moment if that is earlier.
fn earliest_in(letters: &VecDeque<Letter>, moment: Time) -> Time
    ensures { result ≡ lowest moment (times_of message_order letters.now.items) }
{
    let mut earliest = moment;
    for place in 0..letters.len() {
        earliest = earlier(letters[place].message.time, earliest);
    }
    earliest
}
