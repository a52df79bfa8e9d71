//! The tray: letters to members that were taken and have not arrived. How the front one counts, and messages that were sent in vain.
ghost use Rattle.std.specs.Prelude.{◌↔◌, IsTrue, ◌≡◌, ◌+◌, ◌<◌, ◌≤◌, [], ◌∷◌, ◌++◌, true, false, List, Ok, Contains, OnOk, OnErr, IfOk, IfSome, IfNone, IsPermutation};
ghost use Rattle.std.specs.VecDeque.{deque_len, deque_capacity};
ghost use Rattle.vlink.specs.declared.message.Message.{Message};
ghost use Rattle.vlink.specs.Letters.{Letter};
ghost use Rattle.vlink.specs.Order.{message_order};
ghost use Rattle.virtual_time.specs.Law.{minus_of};
ghost use Rattle.virtual_time.specs.declared.letter.Sign.TheVariants.{Plus, Minus};
ghost use Rattle.antimessages.specs.Counting.{HaveSameCounts};
ghost use Rattle.group_queues.specs.Counted.{FrontCounts};
ghost use Rattle.group_queues.specs.declared.block.Word.TheVariants.{Arrived, Taken};
ghost use Rattle.group_queues.specs.declared.tray.Way.{Way};
ghost use Rattle.group_queues.specs.declared.tray.Way.TheVariants.{Beside};

use crate::block::Word;
use crate::letters::Letters;
use antimessages::OutOfMemory;
use std::collections::VecDeque;
use vlink::{Letter, Message, Sign, order_law};

/// The most letters for which an empty tray keeps room.
const MOST_KEPT: usize = 4096;

/// What happens to the message of a letter that arrives.
#[derive(Clone, Copy)]
pub enum Way {
    /// The tally counts the letter.
    Beside,
    /// It joins the queue.
    Joins,
    /// It leaves the queue.
    Leaves,
    /// It was done, and is undone.
    Undoes,
}

impl Letters {
    /// Puts a letter to a member, which was taken, at the back of the tray. The room for it was made before.
    pub fn deliver_reserved(&mut self, letter: &Letter)
        requires { 0 < self.old.room }
        ensures delivered { self.new ≡ record self.old { tray = self.old.tray ++ letter.now ∷ []; room = self.new.room } }
        ensures room { self.old.room ≤ self.new.room + 1 }
    {
        push_back(&mut self.tray, letter);
        self.room -= 1;
    }

    /// Whether no letter waits to arrive.
    #[inline(always)]
    pub fn is_quiet(&self) -> bool
        ensures { IsTrue result ↔ (self.now.tray ≡ []) }
    {
        self.tray.is_empty()
    }

    /// Returns the front letter of the tray, if any.
    pub fn front(&self) -> Option<Letter>
        ensures front { IfSome result (λ l. (rest : List Letter) × (self.now.tray ≡ l ∷ rest)) }
        ensures none { IfNone result (self.now.tray ≡ []) }
    {
        match self.tray.front() {
            Some(letter) => Some(*letter),
            None => None,
        }
    }

    /// Returns what happens to the letter's message; `is_done` states whether a done event has it. A letter for the tally is tallied, and a
    /// message that leaves the queue has left it. A refusal changes nothing.
    pub fn count(&mut self, letter: &Letter, is_done: bool) -> Result<Way, OutOfMemory>
        ensures counted { (way : Way) → result ≡ Ok way → FrontCounts letter.now is_done self.old self.new way }
        ensures others { self.new ≡ record self.old { queue = self.new.queue; extra = self.new.extra; room = self.new.room } }
        ensures room { self.old.room ≤ self.new.room }
        ensures queue { OnErr result (self.new.queue ≡ self.old.queue) }
        ensures extra { OnErr result (self.new.extra ≡ self.old.extra) }
    {
        match letter.sign {
            Sign::Plus => self.count_plus(letter, is_done),
            Sign::Minus => self.count_minus(letter, is_done),
        }
    }

    /// Does what `count` does, for a plus letter.
    fn count_plus(&mut self, letter: &Letter, is_done: bool) -> Result<Way, OutOfMemory>
        requires { letter.now.sign ≡ Plus }
        ensures counted { (way : Way) → result ≡ Ok way → FrontCounts letter.now is_done self.old self.new way }
        ensures others { self.new ≡ record self.old { queue = self.new.queue; extra = self.new.extra; room = self.new.room } }
        ensures room { self.old.room ≤ self.new.room }
        ensures queue { self.new.queue ≡ self.old.queue }
        ensures extra { OnErr result (self.new.extra ≡ self.old.extra) }
    {
        if is_done {
            return self.tally(letter);
        }
        if self.extra.count(&letter.message) < 0 {
            return self.tally(letter);
        }
        Ok(Way::Joins)
    }

    /// Does what `count` does, for a minus letter.
    fn count_minus(&mut self, letter: &Letter, is_done: bool) -> Result<Way, OutOfMemory>
        requires { letter.now.sign ≡ Minus }
        ensures counted { (way : Way) → result ≡ Ok way → FrontCounts letter.now is_done self.old self.new way }
        ensures others { self.new ≡ record self.old { queue = self.new.queue; extra = self.new.extra; room = self.new.room } }
        ensures room { self.old.room ≤ self.new.room }
        ensures queue { OnErr result (self.new.queue ≡ self.old.queue) }
        ensures extra { OnErr result (self.new.extra ≡ self.old.extra) }
    {
        if self.extra.count(&letter.message) > 0 {
            return self.tally(letter);
        }
        if self.queue.remove(&letter.message) {
            return Ok(Way::Leaves);
        }
        if is_done {
            return Ok(Way::Undoes);
        }
        self.tally(letter)
    }

    /// Counts the letter in the tally.
    fn tally(&mut self, letter: &Letter) -> Result<Way, OutOfMemory>
        ensures beside { IfOk result (λ way. way ≡ Beside) }
        ensures counts { OnOk result (HaveSameCounts message_order self.new.extra (letter.now ∷ self.old.extra)) }
        ensures others { self.new ≡ record self.old { extra = self.new.extra; room = self.new.room } }
        ensures room { self.new.room ≡ self.old.room }
        ensures unchanged { OnErr result (self.new.extra ≡ self.old.extra) }
    {
        order_law();
        self.extra.add(*letter)?;
        Ok(Way::Beside)
    }

    /// Removes the front letter of the tray, which is this one, and adds the word that it arrived. The room for it was made before.
    pub fn take_front(&mut self, letter: &Letter)
        requires { 0 < self.old.room }
        ensures tray { (rest : List Letter) → self.old.tray ≡ letter.now ∷ rest → self.new.tray ≡ rest }
        ensures words { self.new.words ≡ self.old.words ++ Arrived letter.now.message.receiver ∷ [] }
        ensures others { self.new ≡ record self.old { tray = self.new.tray; words = self.new.words; room = self.new.room } }
        ensures room { self.old.room ≤ self.new.room + 1 }
    {
        let _front = self.tray.pop_front();
        self.block.push_reserved(Word::Arrived {
            process: letter.message.receiver,
        });
        self.room -= 1;
    }

    /// Removes the message from the queue, if it is there.
    pub fn take_out(&mut self, message: &Message)
        ensures taken { Contains self.old.queue message.now → IsPermutation self.old.queue (message.now ∷ self.new.queue) }
        ensures others { self.new ≡ record self.old { queue = self.new.queue; room = self.new.room } }
        ensures room { self.old.room ≤ self.new.room }
    {
        let _gone = self.queue.remove(message);
    }

    /// Takes back a message that an undone event sent: its antimessage goes where the message went.
    pub fn take_back(&mut self, message: &Message, is_home: bool)
        requires { 0 < self.old.room }
        ensures home { is_home ≡ true → self.new ≡ record self.old { tray = self.old.tray ++ minus_of message.now ∷ []; words = self.old.words ++ Taken message.now.receiver ∷ []; room = self.new.room } }
        ensures abroad { is_home ≡ false → self.new ≡ record self.old { abroad = self.old.abroad ++ minus_of message.now ∷ []; room = self.new.room } }
        ensures room { self.old.room ≤ self.new.room + 1 }
    {
        if is_home {
            self.hold(message, Sign::Minus);
        } else {
            self.post(message, Sign::Minus);
        }
    }

    /// Sorts the messages that wait in no order, if they are many. Gives back the room of a tray that was emptied of many letters.
    pub fn sort_many(&mut self)
        ensures { self.new ≡ record self.old { room = self.new.room } }
    {
        self.room = 0;
        self.queue.sort_many();
        give_back(&mut self.tray);
    }
}

/// Puts the item at the back. The room for it was made before. The type parameter is there for the borrow checker.
fn push_back<T: Copy + Drop>(items: &mut VecDeque<T>, item: &T)
    requires { deque_len items.old < deque_capacity items.old }
    ensures pushed { items.new.items ≡ items.old.items ++ item.now ∷ [] }
    ensures len { deque_len items.new ≡ deque_len items.old + 1 }
    ensures capacity { deque_capacity items.new ≡ deque_capacity items.old }
{
    items.push_back_reserved(*item);
}

/// Gives back large room that the tray does not need: the offers of a run come through it at the start, and so many letters do not come
/// again.
fn give_back(tray: &mut VecDeque<Letter>)
    ensures { tray.new.items ≡ tray.old.items }
{
    if tray.capacity() > MOST_KEPT {
        tray.shrink_to_fit();
    }
}
