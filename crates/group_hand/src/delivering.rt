//! Takes letters to a group from the mail of the run.
ghost use Rattle.std.specs.Prelude.{◌≡◌, ◌≤◌, ◌<◌, ◌+◌, [], ◌∷◌, ◌++◌, true, OnOk, OnErr, IfErr};
ghost use Rattle.vlink.specs.declared.message.Message.{Message};
ghost use Rattle.vlink.specs.Order.{message_order};
ghost use Rattle.virtual_time.specs.Law.{World};
ghost use Rattle.reverse.specs.Rules.{rules_of};
ghost use Rattle.reverse.specs.Setting.{Setting};
ghost use Rattle.group_hand.specs.Hands.{StandsForGroup, IsAsBefore, is_ours, with_letter};
ghost use Rattle.group_hand.specs.declared.fault.HandFault.TheVariants.{OutOfMemory};

use crate::fault::HandFault;
use crate::hand::Hand;
use reverse::{Actor, actor_rules_law};
use vlink::Letter;

impl<R: Actor> Hand<R> {
    /// Puts a letter to a member, which was taken from the mail of the run, at the back of the tray. A refusal leaves all as it was.
    pub fn deliver(&mut self, letter: Letter) -> Result<(), HandFault>
        requires { is_ours self.old.members letter.message.receiver ≡ true }
        ensures delivered { OnOk result ((x : Setting R) (v : World Message R) → letter.message.time ≤ x.until →
            StandsForGroup (rules_of R.plain) R.is_value x v self.old → StandsForGroup (rules_of R.plain) R.is_value x (with_letter message_order letter v) self.new) }
        ensures members { self.new.members ≡ self.old.members }
        ensures words { self.new.flow.words ≡ self.old.flow.words }
        ensures unchanged { OnErr result (IsAsBefore self.old self.new) }
        ensures memory { IfErr result (λ fault. fault ≡ OutOfMemory) }
    {
        actor_rules_law::<R>();
        self.reserve_letters(1)?;
        self.deliver_reserved(letter);
        Ok(())
    }

    /// Makes room for `more` letters: as long as no other call comes between, this many calls of `deliver_reserved` have room. A refusal
    /// leaves all as it was.
    pub fn reserve_letters(&mut self, more: usize) -> Result<(), HandFault>
        ensures room { OnOk result (more ≤ self.new.flow.room) }
        ensures same { IsAsBefore self.old self.new }
        ensures memory { IfErr result (λ fault. fault ≡ OutOfMemory) }
    {
        match self.letters.reserve(more) {
            Ok(()) => Ok(()),
            Err(_fault) => Err(HandFault::OutOfMemory),
        }
    }

    /// Puts a letter to a member, which was taken from the mail of the run, at the back of the tray. The room for it was made before.
    pub fn deliver_reserved(&mut self, letter: Letter)
        requires ours { is_ours self.old.members letter.message.receiver ≡ true }
        requires room { 0 < self.old.flow.room }
        ensures told { self.new ≡ record self.old { flow = record self.old.flow { tray = self.old.flow.tray ++ letter ∷ []; room = self.new.flow.room } } }
        ensures room { self.old.flow.room ≤ self.new.flow.room + 1 }
        ensures delivered { (x : Setting R) (v : World Message R) → letter.message.time ≤ x.until →
            StandsForGroup (rules_of R.plain) R.is_value x v self.old → StandsForGroup (rules_of R.plain) R.is_value x (with_letter message_order letter v) self.new }
    {
        actor_rules_law::<R>();
        self.letters.deliver_reserved(&letter);
    }
}
