//! What a process of the simulation is.
ghost use Rattle.std.specs.Prelude.{◌≡◌, ℕ, ◌+◌, ◌<◌, ◌≤◌, ◌↔◌, IsTrue, All, length};
ghost use Rattle.vlink.specs.declared.message.Message.{Message};
ghost use Rattle.vlink.specs.Numbering.{greatest_number};
ghost use Rattle.virtual_time.specs.Law.{IsNumbered};
ghost use Rattle.reverse.specs.declared.sends.TheConstants.{MOST_SENT};

use crate::outbound::Outbound;
use crate::reversible::Reversible;
use crate::sends::Sends;
use vlink::{GREATEST_NS, Message, Time};

/// A process of the simulation: a reversible element whose events are messages. Its answer is what it sends and notes.
pub trait Actor: Reversible<Event = Message, Out = Sends> {
    /// The number of the process.
    ghost number: { Self → ℕ };

    /// The end time of the run, in ns. Messages after it are left out.
    ghost end: { Self → ℕ };

    /// The fixed parts of the state are those of a process; for instance, its delays are at least 1 ns. A state as such can have a delay of
    /// 0. There the law that sends are later would be wrong, so only placed actors must meet it.
    ghost is_placed: { Self → Type 0 };

    /// Returns the number of the process.
    fn id(&self) -> u16
        ensures number { result ≡ number self.now }
        ensures placed { is_placed self.now };

    /// Returns the end time of the run.
    fn until(&self) -> Time
        ensures end { result ≡ end self.now }
        ensures in_limits { result < GREATEST_NS };

    /// Whether the sender has numbers left for all that one event can send. This must be known before the event is handled, when it is not
    /// yet known how many messages it sends. So numbers for `MOST_SENT` messages are required. The laws count without a limit.
    fn has_numbers(&self) -> bool
        ensures { IsTrue result ↔ (Self.plain.counter self.now + MOST_SENT ≤ greatest_number) };

    /// Handles the event just as `apply` does, and leaves in `out` what it sends and notes, in place of the previous contents. So a caller
    /// that handles many events makes the room for sends once.
    fn handle(&mut self, event: &Message, out: &mut Outbound) -> Self::Record
        requires { Self.can_apply self.old }
        ensures state { self.new ≡ Self.plain.after self.old event.now }
        ensures messages { out.new.messages ≡ (Self.plain.out self.old event.now).messages.items }
        ensures notes { out.new.notes ≡ (Self.plain.out self.old event.now).notes.items }
        ensures saved { result ≡ Self.plain.saves self.old event.now }
        ensures valid { Self.is_value self.old event.now }
    {
        let (sends, kept) = self.apply(event);
        out.hold(sends);
        kept
    }

    /// Numbers are the only requirement.
    ghost numbers_suffice: { (s : Self) → Self.plain.counter s + MOST_SENT ≤ greatest_number → Self.can_apply s };

    /// An event keeps the number of the process, the end time and the fixed parts.
    ghost number_stays: { (s : Self) (e : Message) → number (Self.plain.after s e) ≡ number s };

    ghost end_stays: { (s : Self) (e : Message) → end (Self.plain.after s e) ≡ end s };

    ghost place_stays: { (s : Self) (e : Message) → is_placed s → is_placed (Self.plain.after s e) };

    /// Each message that is sent has this process as its sender, is later than the event, and is not later than the end time.
    ghost own_sends: { (s : Self) (e : Message) → All (λ m. m.sender ≡ number s) (Self.plain.out s e).messages.items };

    ghost later_sends: { (s : Self) (e : Message) → is_placed s → All (λ m. e.time < m.time) (Self.plain.out s e).messages.items };

    ghost timely_sends: { (s : Self) (e : Message) → All (λ m. m.time ≤ end s) (Self.plain.out s e).messages.items };

    /// The numbers continue from the counter, one for each message.
    ghost numbered_sends: { (s : Self) (e : Message) → IsNumbered (λ m. m.number) (Self.plain.counter s) (Self.plain.out s e).messages.items };

    ghost counter_grows: { (s : Self) (e : Message) →
        Self.plain.counter (Self.plain.after s e) ≡ Self.plain.counter s + length (Self.plain.out s e).messages.items };
}
