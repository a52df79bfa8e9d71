//! When each group has something to do next, and how far the workers have come.
//!
//! When a thread sees what another wrote has no clause. What it makes of it is exact where it is a function of numbers.
ghost use Rattle.std.specs.Prelude.{◌≡◌, ◌↔◌, ◌+◌, ◌<◌, IsTrue, min};
ghost use Rattle.turns.specs.Meeting.{never};
ghost use Rattle.turns.specs.declared.TheConstants.{LEAD_NS};

use crate::LEAD_NS;
use crate::apart::Apart;
use std::alloc::{AllocError, Global};
use std::sync::atomic::{AtomicBool, AtomicU64, Ordering};
use vlink::Time;

/// What workers announce of a group.
#[derive(Drop)]
struct Moment {
    /// The moment of its next event, in ns, or of its earliest letter that is not posted, as who gave it a turn announced it last.
    next_ns: AtomicU64,
    /// The least moment of the letters that wait for it, in ns. Whoever posts a letter lowers it behind the section in which it posts.
    /// Whoever takes the letters raises it in the section in which it takes them. So no letter that waits stays unannounced. One that was
    /// taken before it was announced is announced in vain, which costs a section.
    letter_ns: AtomicU64,
}

impl Moment {
    /// Returns the moment at which it has something to do, in ns.
    fn first_ns(&self) -> u64 {
        self.next_ns
            .load(Ordering::SeqCst)
            .min(self.letter_ns.load(Ordering::SeqCst))
    }

    /// Notes that it has something to do at this moment, in ns, or sooner. The caller gives the group a turn.
    fn lower_next(&self, moment_ns: u64) {
        if moment_ns < self.next_ns.load(Ordering::SeqCst) {
            self.next_ns.store(moment_ns, Ordering::SeqCst);
        }
    }
}

/// Makes the moments of `groups` groups, for each of which a letter of the moment 0 waits. Only memory can be refused.
fn first_moments(alloc: Global, groups: usize) -> Result<Vec<Apart<Moment>>, AllocError> {
    let mut moments = Vec::with_capacity(alloc, groups)?;
    for _ in 0..groups {
        moments.push(Apart::new(Moment {
            next_ns: AtomicU64::new(u64::MAX),
            letter_ns: AtomicU64::new(0),
        }))?;
    }
    Ok(moments)
}

/// Gives groups to workers in turn, and returns the worker of each group. Only memory can be refused.
fn owners_of(alloc: Global, groups: usize, workers: usize) -> Result<Vec<usize>, AllocError> {
    let mut owners = Vec::with_capacity(alloc, groups)?;
    let mut owner: usize = 0;
    for _ in 0..groups {
        owners.push(owner)?;
        owner = if owner.saturating_add(1) < workers {
            owner.saturating_add(1)
        } else {
            0
        };
    }
    Ok(owners)
}

/// Whether GVT is beyond the end, both in ns: then all is done.
fn is_beyond(gvt_ns: u64, until_ns: u64) -> bool
    ensures { IsTrue result ↔ (until_ns < gvt_ns) }
{
    gvt_ns > until_ns
}

/// Before which moment events are due if this is the least moment of all groups, both in ns.
fn limit_behind(least_ns: u64) -> u64
    ensures { result ≡ min (least_ns + LEAD_NS) never }
{
    least_ns.saturating_add(LEAD_NS)
}

/// What the workers announce to one another.
#[derive(Drop)]
pub struct Moments {
    moments: Vec<Apart<Moment>>,
    /// The worker of each group.
    owners: Vec<usize>,
    /// The end time of the network, in ns.
    until_ns: u64,
    /// Set if a refusal ends all workers.
    stop: AtomicBool,
    /// The last GVT, in ns.
    gvt_ns: Apart<AtomicU64>,
}

impl Moments {
    /// Makes the moments of `groups` groups, which belong to the workers in turn. A letter of the moment 0 waits for each group. Only
    /// memory can be refused.
    pub(crate) fn new(
        alloc: Global,
        groups: usize,
        workers: usize,
        until: Time,
    ) -> Result<Self, AllocError> {
        let owners = owners_of(alloc, groups, workers)?;
        match first_moments(alloc, groups) {
            Ok(moments) => Ok(Moments {
                moments,
                owners,
                until_ns: until.ns(),
                stop: AtomicBool::new(false),
                gvt_ns: Apart::new(AtomicU64::new(0)),
            }),
            Err(fault) => {
                drop(owners);
                Err(fault)
            }
        }
    }

    /// Returns the number of groups.
    pub(crate) fn groups(&self) -> usize {
        self.moments.len()
    }

    /// Returns the worker of a group, if the group exists.
    pub(crate) fn owner(&self, group: usize) -> Option<usize> {
        match self.owners.get(group) {
            Some(owner) => Some(*owner),
            None => None,
        }
    }

    /// Whether the group belongs to this worker.
    pub(crate) fn is_of(&self, group: usize, worker: usize) -> bool {
        self.owner(group) == Some(worker)
    }

    /// Returns the last GVT, in ns.
    pub(crate) fn gvt_ns(&self) -> u64 {
        self.gvt_ns.value.load(Ordering::SeqCst)
    }

    /// Sets GVT to this moment, in ns. Returns whether it changed. The caller has the lock of the exchange.
    pub fn publish(&self, gvt_ns: u64) -> bool {
        if self.gvt_ns() == gvt_ns {
            return false;
        }
        self.gvt_ns.value.store(gvt_ns, Ordering::SeqCst);
        true
    }

    /// Ends all workers at their next turn, because of a refusal.
    pub(crate) fn stop(&self) {
        self.stop.store(true, Ordering::SeqCst);
    }

    /// Whether GVT is beyond the end, or a refusal ends all workers.
    pub(crate) fn is_over(&self) -> bool {
        is_beyond(self.gvt_ns(), self.until_ns) || self.stop.load(Ordering::SeqCst)
    }

    /// Returns the group, other than those of this worker, that is furthest behind, if it has something to do before this moment, in ns.
    pub(crate) fn furthest_behind(&self, worker: usize, limit_ns: u64) -> Option<usize> {
        let mut least_ns = limit_ns;
        let mut behind = None;
        for group in 0..self.groups() {
            let first_ns = self.first_ns(group);
            if first_ns < least_ns && !self.is_of(group, worker) {
                least_ns = first_ns;
                behind = Some(group);
            }
        }
        behind
    }

    /// Before which moment events are due now, in ns: `LEAD_NS` later than the least moment of all groups. The only group has none to wait for.
    pub(crate) fn limit_ns(&self) -> u64 {
        if self.moments.len() == 1 {
            return u64::MAX;
        }
        let mut least_ns = u64::MAX;
        for moment in &self.moments {
            least_ns = least_ns.min(moment.value.first_ns());
        }
        limit_behind(least_ns)
    }

    /// Returns the moment at which the group has something to do, in ns.
    pub(crate) fn first_ns(&self, group: usize) -> u64 {
        match self.moments.get(group) {
            Some(moment) => moment.value.first_ns(),
            None => u64::MAX,
        }
    }

    /// Whether the group has something to do before this moment, in ns.
    pub(crate) fn is_due(&self, group: usize, limit_ns: u64) -> bool {
        self.first_ns(group) < limit_ns
    }

    /// Whether only GVT is missing for this worker: no group has an event before the end, or one of its own would be due without the
    /// window.
    pub(crate) fn waits_for_gvt(&self, worker: usize) -> bool {
        let limit_ns = self.limit_ns();
        if limit_ns > self.until_ns {
            return true;
        }
        for group in 0..self.groups() {
            if self.is_of(group, worker) && self.is_due(group, limit_ns) {
                return true;
            }
        }
        false
    }

    /// Returns the least moment of the letters that wait for this group, in ns.
    pub(crate) fn letter_ns(&self, group: u16) -> u64 {
        match self.moments.get(usize::from(group)) {
            Some(moment) => moment.value.letter_ns.load(Ordering::SeqCst),
            None => u64::MAX,
        }
    }

    /// Announces the moment of the group's next event, or of its earliest letter that is not posted, in ns.
    pub(crate) fn tell(&self, group: u16, moment_ns: u64) {
        if let Some(moment) = self.moments.get(usize::from(group)) {
            moment.value.next_ns.store(moment_ns, Ordering::SeqCst);
        }
    }

    /// The letters that waited for the group are collected. The answer is the least moment of those that were announced, in ns. Its caller has the lock of the
    /// exchange.
    pub fn collect(&self, group: u16) -> u64 {
        let Some(moment) = self.moments.get(usize::from(group)) else {
            return u64::MAX;
        };
        let moment = &moment.value;
        // In between, the others must see no later moment.
        moment.lower_next(moment.letter_ns.load(Ordering::SeqCst));
        let letter_ns = moment.letter_ns.swap(u64::MAX, Ordering::SeqCst);
        moment.lower_next(letter_ns);
        letter_ns
    }

    /// Announces that a letter of this moment, in ns, waits for the group.
    fn call(&self, group: usize, moment_ns: u64) {
        if let Some(moment) = self.moments.get(group) {
            moment
                .value
                .letter_ns
                .fetch_min(moment_ns, Ordering::SeqCst);
        }
    }

    /// Announces to the groups the letters that are listed for them, the least moment of each, in ns; and none is listed from then on.
    pub(crate) fn call_all(&self, letters_ns: &mut [u64]) {
        for (group, letter_ns) in letters_ns.iter_mut().enumerate() {
            if *letter_ns != u64::MAX {
                self.call(group, *letter_ns);
                *letter_ns = u64::MAX;
            }
        }
    }
}
