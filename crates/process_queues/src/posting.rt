//! The letters of a process go to the mail.
ghost use Rattle.std.specs.Prelude.{◌≡◌, ◌<◌, ◌≤◌, ℕ, ◌++◌, [], length, All, IsOk, OnOk, OnErr, IfErr};
ghost use Rattle.virtual_time.specs.Law.{received_by, emptied};
ghost use Rattle.reverse.specs.Rules.{rules_of};
ghost use Rattle.vlink.specs.Order.{message_order};
ghost use Rattle.antimessages.specs.Mailing.{letters_for, room_for, HasRoom};
ghost use Rattle.process_queues.specs.declared.fault.ProcFault.TheVariants.{OutOfMemory};
ghost use Rattle.process_queues.specs.Queues.{Does};

use crate::fault::ProcFault;
use crate::process::Process;
use antimessages::Mail;
use reverse::Actor;

impl<R: Actor> Process<R> {
    /// Makes room in the mail for the letters of the outbox: as long as no other call comes between, the next `post` into that mail takes
    /// no memory. It can be refused only if some receiver's mail has less room.
    pub fn reserve_post(&self, mail: &mut Mail) -> Result<(), ProcFault>
        requires { All (λ letter. letter.message.receiver < length mail.old) self.now.queues.outbox }
        ensures room { OnOk result (HasRoom mail.new self.now.queues.outbox) }
        ensures no_less { (p : ℕ) → room_for p mail.old ≤ room_for p mail.new }
        ensures same { (p : ℕ) → letters_for p mail.new ≡ letters_for p mail.old }
        ensures processes { length mail.new ≡ length mail.old }
        ensures reserved { HasRoom mail.old self.now.queues.outbox → IsOk result }
        ensures memory { IfErr result (λ fault. fault ≡ OutOfMemory) }
    {
        mail.reserve(&self.outbox)?;
        Ok(())
    }

    /// Moves the letters of the outbox, in order, to the back of their receivers' mail, and leaves the outbox empty. If the room was made
    /// before, it takes no memory and succeeds.
    pub fn post(&mut self, mail: &mut Mail) -> Result<(), ProcFault>
        requires { All (λ letter. letter.message.receiver < length mail.old) self.old.queues.outbox }
        ensures emptied { OnOk result (Does (rules_of R.plain) R.is_value (λ opening. emptied) self.old.queues self.new.queues) }
        ensures posted { OnOk result ((p : ℕ) → letters_for p mail.new ≡ letters_for p mail.old ++ received_by message_order p self.old.queues.outbox) }
        ensures queues { OnOk result (self.new.queues ≡ record self.old.queues { outbox = [] }) }
        ensures processes { length mail.new ≡ length mail.old }
        ensures unchanged { OnErr result (self.new.queues ≡ self.old.queues) }
        ensures mail_unchanged { OnErr result ((p : ℕ) → letters_for p mail.new ≡ letters_for p mail.old) }
        ensures reserved { HasRoom mail.old self.old.queues.outbox → IsOk result }
        ensures memory { IfErr result (λ fault. fault ≡ OutOfMemory) }
    {
        mail.post(&mut self.outbox)?;
        Ok(())
    }
}
