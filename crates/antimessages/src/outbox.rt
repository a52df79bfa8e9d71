//! The outbox of a process.
ghost use Rattle.std.specs.Prelude.{◌≡◌, ◌+◌, ◌<◌, ◌≤◌, ◌↔◌, [], ◌∷◌, ◌++◌, map, All, IsTrue, IsOk, IfOk, OnOk, OnErr};
ghost use Rattle.virtual_time.specs.Law.{plus_of};

use crate::fault::OutOfMemory;
use crate::posting::are_within;
use std::alloc::Global;
use std::marker::Model;
use vlink::{Letter, Message, Sign};

/// The letters of one process that wait to be posted, in the order in which they were made.
pub struct Outbox {
    pub(crate) letters: Vec<Letter>,
}

impl Model for Outbox {
    ghost use Rattle.std.specs.Prelude.{◌-◌, map, vec_len, vec_capacity};
    ghost use Rattle.antimessages.specs.Letters.{Store};

    ghost Value = { Store };

    ghost view = { λ b. record { letters = b.letters.items; room = vec_capacity b.letters - vec_len b.letters } };
}

impl Drop for Outbox {
    fn drop(self) {
        let Self { letters: _ } = self;
    }
}

impl Outbox {
    /// Makes an outbox without letters. Takes no memory.
    pub fn new(alloc: Global) -> Self
        ensures { result.letters ≡ [] }
    {
        Outbox {
            letters: Vec::new(alloc),
        }
    }

    /// Returns the letters, the first made at the front.
    pub fn letters(&self) -> &[Letter]
        ensures { result.now ≡ self.now.letters }
    {
        &self.letters
    }

    /// Whether each letter is for one of the processes 0 to `processes` - 1. Then it can be posted to their mail.
    pub fn goes_within(&self, processes: usize) -> bool
        ensures { IsTrue result ↔ All (λ letter. letter.message.receiver < processes) self.now.letters }
    {
        are_within(&self.letters, processes)
    }

    /// Puts the letter at the back. If the room was made before, it takes no memory and succeeds. A refusal changes nothing.
    pub fn push(&mut self, letter: Letter) -> Result<(), OutOfMemory>
        ensures pushed { OnOk result (self.new.letters ≡ self.old.letters ++ letter ∷ []) }
        ensures unchanged { OnErr result (self.new.letters ≡ self.old.letters) }
        ensures reserved { 0 < self.old.room → IsOk result }
        ensures room { self.old.room ≤ self.new.room + 1 }
    {
        self.letters.reserve(1)?;
        // The letter is written out again, since the kit's borrow checker does not allow to pass it on.
        self.letters.push_reserved(Letter {
            message: letter.message,
            sign: letter.sign,
        });
        Ok(())
    }

    /// Makes room for `count` more letters, so that this many calls of `push` take no memory. It can be refused only if there is less room.
    pub fn reserve(&mut self, count: usize) -> Result<(), OutOfMemory>
        ensures same { self.new.letters ≡ self.old.letters }
        ensures room { OnOk result (count ≤ self.new.room) }
        ensures no_less { self.old.room ≤ self.new.room }
        ensures reserved { count ≤ self.old.room → IsOk result }
    {
        self.letters.reserve(count)?;
        Ok(())
    }
}

/// Makes, for each message in order, the letter that brings it.
pub fn plus_letters(alloc: Global, messages: &[Message]) -> Result<Outbox, OutOfMemory>
    ensures { IfOk result (λ outbox. outbox.letters ≡ map plus_of messages.now) }
{
    let mut outbox = Outbox::new(alloc);
    for message in messages {
        outbox.push(Letter {
            message: *message,
            sign: Sign::Plus,
        })?;
    }
    Ok(outbox)
}
