//! A gate that holds processes back before their first message until others have begun.
use super::steps::{place_of, runs_of};
use std::fmt::Write;
use std::sync::atomic::{AtomicBool, AtomicU64, Ordering};
use std::thread;
use vlink::Step;
use worker_pool::Gate;

// The state of one process.
#[derive(Drop)]
struct Place {
    // It will handle its first message, or has handled it.
    has_begun: AtomicBool,
    // How many messages it has handled.
    handled: AtomicU64,
}

impl Place {
    fn new() -> Self {
        Place {
            has_begun: AtomicBool::new(false),
            handled: AtomicU64::new(0),
        }
    }
}

#[derive(Drop)]
pub struct Meeting {
    places: [Place; 7],
    looks: u64,
    // Two pairs of processes, of which the first waits for the second.
    pairs: [(u16, u16); 2],
    // How many processes looked in vain.
    missed: AtomicU64,
}

impl Meeting {
    // Makes a gate for the seven processes of the network, none of which has begun.
    pub fn new(looks: u64, pairs: [(u16, u16); 2]) -> Self {
        Meeting {
            places: [
                Place::new(),
                Place::new(),
                Place::new(),
                Place::new(),
                Place::new(),
                Place::new(),
                Place::new(),
            ],
            looks,
            pairs,
            missed: AtomicU64::new(0),
        }
    }

    // Counts a process as one that looked in vain if the gate is called for a message out of order: its number must be that of the messages
    // handled before.
    fn check_number(&self, place: &Place, run: u64) {
        if place.handled.load(Ordering::SeqCst) != run {
            self.missed.fetch_add(1, Ordering::SeqCst);
        }
    }

    // Whether this process was seen to have begun.
    fn sees(&self, process: u16) -> bool {
        let Some(place) = self.places.get(usize::from(process)) else {
            return false;
        };
        for look in 0..self.looks {
            if place.has_begun.load(Ordering::SeqCst) {
                return true;
            }
            if look % 1024 == 1023 {
                thread::yield_now();
            }
        }
        false
    }

    // Whether this process waits for none, or has seen the one for which it waits.
    fn is_met(&self, process: u16) -> bool {
        for (first, second) in self.pairs {
            if first == process {
                return self.sees(second);
            }
        }
        true
    }

    // Writes the results of a run. The gate was called for each message as often as the journal has it handled.
    pub fn tell(&self, journal: &[Step], taker: u16, runner: u16, told: &mut String) {
        if !self.was_told(journal) {
            let _ = told.push_str("not told ");
        }
        let taken = Step::Take {
            process: u32::from(taker),
            place: 0,
        };
        let run = Step::Run {
            process: u32::from(runner),
        };
        let is_ordered = place_of(journal, taken) < place_of(journal, run);
        let missed = self.missed.load(Ordering::SeqCst);
        let _ = write!(told, "{missed} {is_ordered}");
    }

    fn was_told(&self, journal: &[Step]) -> bool {
        for (process, place) in self.places.iter().enumerate() {
            if place.handled.load(Ordering::SeqCst) != runs_of(journal, process) {
                return false;
            }
        }
        true
    }
}

impl Gate for Meeting {
    fn before(&self, process: u16, run: u64) {
        let Some(place) = self.places.get(usize::from(process)) else {
            return;
        };
        self.check_number(place, run);
        if run != 0 {
            return;
        }
        place.has_begun.store(true, Ordering::SeqCst);
        if !self.is_met(process) {
            self.missed.fetch_add(1, Ordering::SeqCst);
        }
    }

    fn after(&self, process: u16, run: u64) {
        if let Some(place) = self.places.get(usize::from(process)) {
            self.check_number(place, run);
            place.handled.fetch_add(1, Ordering::SeqCst);
        }
    }
}
