//! Runs the next event.
ghost use Rattle.reverse.specs.Rules.{rules_of};
ghost use Rattle.process_queues.specs.Running.{IsRun};

use crate::fault::ProcFault;
use crate::process::Process;
use reverse::{Actor, Outbound, actor_rules_law};
use vlink::{Message, Time};

impl<R: Actor> Process<R> {
    /// Handles the first present message that is not done: it joins the done events, and what it sends goes to the outbox. Returns that
    /// message, or none if no such message exists.
    pub fn run(&mut self) -> Result<Option<Message>, ProcFault>
        ensures { IsRun (rules_of R.plain) R.is_value self.old.queues self.new.queues result }
    {
        let mut out = Outbound::new(0, Time::default(), 0);
        self.run_with(&mut out)
    }

    /// Does what `run` does. `out` is room for what the event sends and notes: a caller that handles many events makes it once.
    pub fn run_with(&mut self, out: &mut Outbound) -> Result<Option<Message>, ProcFault>
        ensures { IsRun (rules_of R.plain) R.is_value self.old.queues self.new.queues result }
    {
        actor_rules_law::<R>();
        let Some(message) = self.next() else {
            return Ok(None);
        };
        if !self.past.actor().has_numbers() {
            return Err(ProcFault::Exhausted);
        }
        self.past.handle(&message, out, &mut self.outbox)?;
        self.tally.take_present(&message);
        self.next = self.tally.next_after(self.past.newest());
        Ok(Some(message))
    }
}
