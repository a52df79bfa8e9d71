//! How a message that was just sent is passed on: to others, into the queue, or into the tray.
ghost use Rattle.std.specs.Prelude.{◌≡◌, ◌+◌, ◌<◌, ◌≤◌, ◌⊎◌, [], ◌∷◌, ◌++◌, true, false, IsPermutation};
ghost use Rattle.vlink.specs.Letters.{Letter};
ghost use Rattle.group_queues.specs.declared.block.Word.TheVariants.{Home, Taken};
ghost use Rattle.group_queues.specs.Flow.{WentAbroad, CameHome, WasTaken};

use crate::block::Word;
use crate::letters::Letters;
use vlink::{Letter, Message, Sign};

impl Letters {
    /// Passes a message that was just sent on. For another group its letter is posted. For a member its letter is taken; the message joins
    /// the queue at once if no letter must arrive before it and the tally does not count it, and otherwise goes to the tray.
    #[inline(always)]
    pub fn pass(&mut self, message: &Message, is_home: bool)
        requires { 0 < self.old.room }
        ensures abroad { is_home ≡ false → WentAbroad message.now self.old self.new }
        ensures home { is_home ≡ true → CameHome message.now self.old self.new ⊎ WasTaken message.now self.old self.new }
        ensures room { self.old.room ≤ self.new.room + 1 }
    {
        if !is_home {
            self.post(message, Sign::Plus);
        } else if self.tray.is_empty() && self.extra.is_zero(message) {
            self.join(message);
        } else {
            self.hold(message, Sign::Plus);
        }
    }

    /// Passes a message that was just sent on: to others; or its letter to a member is taken, and waits in the tray.
    pub fn pass_later(&mut self, message: &Message, is_home: bool)
        requires { 0 < self.old.room }
        ensures abroad { is_home ≡ false → WentAbroad message.now self.old self.new }
        ensures home { is_home ≡ true → WasTaken message.now self.old self.new }
        ensures room { self.old.room ≤ self.new.room + 1 }
    {
        if is_home {
            self.hold(message, Sign::Plus);
        } else {
            self.post(message, Sign::Plus);
        }
    }

    /// Adds a letter of this message to those for others. The room for it was made before.
    #[inline(always)]
    pub(crate) fn post(&mut self, message: &Message, sign: Sign)
        requires { 0 < self.old.room }
        ensures posted { self.new ≡ record self.old { abroad = self.old.abroad ++ record { message = message.now; sign = sign } ∷ []; room = self.new.room } }
        ensures room { self.old.room ≤ self.new.room + 1 }
    {
        let letter = Letter {
            message: *message,
            sign,
        };
        self.abroad.push_reserved(letter);
        self.room -= 1;
    }

    /// Puts a letter of this message to a member, which is taken, into the tray. The room for it was made before.
    pub(crate) fn hold(&mut self, message: &Message, sign: Sign)
        requires { 0 < self.old.room }
        ensures held { self.new ≡ record self.old { tray = self.old.tray ++ record { message = message.now; sign = sign } ∷ []; words = self.old.words ++ Taken message.now.receiver ∷ []; room = self.new.room } }
        ensures room { self.old.room ≤ self.new.room + 1 }
    {
        let letter = Letter {
            message: *message,
            sign,
        };
        self.tray.push_back_reserved(letter);
        self.block.push_reserved(Word::Taken {
            process: message.receiver,
        });
        self.room -= 1;
    }

    /// Takes a letter of this message to a member, which arrives at once: the message joins the queue. The room for it was made before.
    #[inline(always)]
    fn join(&mut self, message: &Message)
        requires { 0 < self.old.room }
        ensures queue { IsPermutation (message.now ∷ self.old.queue) self.new.queue }
        ensures words { self.new.words ≡ self.old.words ++ Home message.now.receiver ∷ [] }
        ensures extra { self.new.extra ≡ self.old.extra }
        ensures tray { self.new.tray ≡ self.old.tray }
        ensures abroad { self.new.abroad ≡ self.old.abroad }
        ensures keeps { self.new.keeps ≡ self.old.keeps }
        ensures room { self.old.room ≤ self.new.room + 1 }
    {
        self.queue.push_reserved(message);
        self.block.push_reserved(Word::Home {
            process: message.receiver,
        });
        self.room -= 1;
    }
}
