//! The floors of all processes.
ghost use Rattle.std.specs.Prelude.{◌≡◌, ◌≢◌, ℕ, ◌+◌, ◌<◌, min, replicate, length, slice_get, slice_index, slice_set, IsOk, IfOk};
ghost use Rattle.std.specs.Option.{option_map};
ghost use Rattle.vlink.specs.declared.time.TheConstants.{GREATEST_NS};

use antimessages::OutOfMemory;
use std::alloc::Global;
use std::marker::Model;
use vlink::{Time, earlier, process_number};

/// For each process a floor: a moment, in ns, such that nothing that the process has in hand and has not posted is earlier. Processes are
/// numbered from 0.
#[derive(Drop)]
pub struct Floors {
    floors: Vec<Time>,
    until: Time,
}

impl Model for Floors {
    ghost use Rattle.std.specs.Prelude.{ℕ, ◌<◌, ◌^◌, length};
    ghost use Rattle.vlink.specs.declared.time.TheConstants.{GREATEST_NS};
    ghost use Rattle.gvt.specs.Horizon.{Floors as Floored};

    ghost Value = { Floored };

    ghost view = { λ f. record { floors = f.floors.items; until = f.until } };

    ghost invariant = { λ f. (f.until < GREATEST_NS) × (length f.floors.items < 65536) };
}

impl Floors {
    /// Makes floors for `processes` processes in a run with this end time: each is the moment after the end. For 0 processes it takes no
    /// memory.
    pub fn new(alloc: Global, processes: u16, until: Time) -> Result<Self, OutOfMemory>
        requires { until < GREATEST_NS }
        ensures floors { IfOk result (λ f. f.floors ≡ replicate processes (until + 1)) }
        ensures each { IfOk result (λ f. (p : ℕ) → p < processes → slice_get f.floors p ≡ Some (until + 1)) }
        ensures processes { IfOk result (λ f. length f.floors ≡ processes) }
        ensures until { IfOk result (λ f. f.until ≡ until) }
        ensures reserved { processes ≡ 0 → IsOk result }
    {
        let end = Time::new(until.ns() + 1).unwrap();
        let mut floors = Vec::new(alloc);
        floors.reserve(usize::from(processes))?;
        for process in 0..processes {
            floors.push_reserved(end);
        }
        Ok(Floors { floors, until })
    }

    /// Returns the number of processes.
    pub fn processes(&self) -> u16
        ensures { result ≡ length self.now.floors }
    {
        process_number(self.floors.len())
    }

    /// Returns the floor of this process, or none if the process does not exist.
    pub fn floor(&self, process: u16) -> Option<Time>
        ensures { result ≡ slice_get self.now.floors process }
    {
        self.floors.get(usize::from(process)).copied()
    }

    /// Returns the moment after the end of the run.
    pub(crate) fn end(&self) -> Time
        ensures { result ≡ self.now.until + 1 }
    {
        Time::new(self.until.ns() + 1).unwrap()
    }

    /// Lowers the floor of this process to the moment, if the moment is lower.
    pub fn lower(&mut self, process: u16, moment: Time)
        requires { process < length self.old.floors }
        ensures floors { self.new.floors ≡ slice_set self.old.floors process (min moment (slice_index self.old.floors process)) }
        ensures lowered { slice_get self.new.floors process ≡ option_map (min moment) (slice_get self.old.floors process) }
        ensures others { (q : ℕ) → q ≢ process → slice_get self.new.floors q ≡ slice_get self.old.floors q }
        ensures processes { length self.new.floors ≡ length self.old.floors }
        ensures until { self.new.until ≡ self.old.until }
    {
        let place = usize::from(process);
        self.floors[place] = earlier(moment, self.floors[place]);
    }

    /// Sets the floor of this process to the moment.
    pub fn set(&mut self, process: u16, moment: Time)
        requires { process < length self.old.floors }
        ensures set { self.new.floors ≡ slice_set self.old.floors process moment }
        ensures here { slice_get self.new.floors process ≡ Some moment }
        ensures others { (q : ℕ) → q ≢ process → slice_get self.new.floors q ≡ slice_get self.old.floors q }
        ensures processes { length self.new.floors ≡ length self.old.floors }
        ensures until { self.new.until ≡ self.old.until }
    {
        self.floors[usize::from(process)] = moment;
    }
}
