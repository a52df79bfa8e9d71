//! The steps of the journal, one by one and as a list.
ghost use Rattle.std.specs.Prelude.{◌≡◌, ◌<◌, ◌≤◌, ◌^◌, true, Some, map, ◌++◌, length, slice_get, OnOk, IfOk, IfErr};
ghost use Rattle.std.specs.Option.{option_map};
ghost use Rattle.vlink.specs.declared.message.Message.{Message};
ghost use Rattle.virtual_time.specs.Law.{steps, steps_of};
ghost use Rattle.journal.specs.declared.fault.PoolFault.TheVariants.{OutOfMemory};

use crate::exchange::Exchange;
use crate::run_of::ActorRun;
use journal::{Entry, PoolFault};
use reverse::Actor;
use std::alloc::{AllocError, Global};
use vlink::Step;

impl<R: Actor, J: ActorRun<R>> Exchange<R, J> {
    /// Returns the number of steps of the journal.
    pub fn steps(&self) -> u64
        ensures { result ≡ length (steps self.now.entries) }
    {
        self.steps
    }

    /// Returns the step number `place`, from 0, of a stored journal, or none behind the last step. Its time is proportional to the number
    /// of entries; `step_list` lists all steps.
    pub fn step_at(&self, place: u64) -> Option<Step>
        requires { J.keeps ≡ true }
        ensures { result ≡ slice_get (steps self.now.entries) place }
    {
        let mut left = place;
        for at in 0..self.entry_count() {
            let entry = self.entry_at(at);
            let count = entry.count();
            if left < count {
                return entry.step(left);
            }
            left -= count;
        }
        None
    }

    /// Lists all steps of a stored journal, in order. Only memory can be refused.
    pub fn step_list(&self, alloc: Global) -> Result<Vec<Step>, PoolFault>
        requires { J.keeps ≡ true }
        ensures list { IfOk result (λ list. list.items ≡ steps self.now.entries) }
        ensures memory { IfErr result (λ fault. fault ≡ OutOfMemory) }
    {
        let mut list = Vec::with_capacity(alloc, self.steps() as usize)?;
        for at in 0..self.entry_count() {
            add_steps(&mut list, self.entry_at(at))?;
        }
        Ok(list)
    }

    /// Returns the number of entries of the journal.
    fn entry_count(&self) -> usize
        ensures { result ≡ length self.now.entries }
    {
        self.journal.len()
    }

    /// Returns the entry at this place of a stored journal, from 0.
    fn entry_at(&self, at: usize) -> &Entry
        requires keeps { J.keeps ≡ true }
        requires there { at < length self.now.entries }
        ensures told { slice_get self.now.entries at ≡ Some result.now }
        ensures few { length (steps_of {M = Message} result.now.process result.now.deed) ≤ 2 ^ 62 }
    {
        let _limit = self.limit;
        self.journal.get(at)
    }
}

/// Appends the steps that an entry represents to the list, in order.
fn add_steps(list: &mut Vec<Step>, entry: &Entry) -> Result<(), AllocError>
    requires few { length (steps_of {M = Message} entry.now.process entry.now.deed) ≤ 2 ^ 62 }
    ensures { OnOk result (list.new.items ≡ list.old.items ++ steps_of {M = Message} entry.now.process entry.now.deed) }
{
    for at in 0..entry.count() {
        if let Some(step) = entry.step(at) {
            list.push(step)?;
        }
    }
    Ok(())
}
