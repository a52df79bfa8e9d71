//! What the workers of a run announce to one another: moments, who of them rests, and whether the run has ended.
use crate::apart::Apart;
use crate::moments::Moments;
use std::alloc::{AllocError, Global};
use std::sync::Wait;
use std::sync::atomic::{AtomicU64, Ordering};
use std::time::Duration;
use vlink::Time;

/// Makes the state in which no worker rests. Only memory can be refused.
fn awake(alloc: Global, workers: usize) -> Result<Vec<Apart<AtomicU64>>, AllocError> {
    let mut rests = Vec::with_capacity(alloc, workers)?;
    for _ in 0..workers {
        rests.push(Apart::new(AtomicU64::new(0)))?;
    }
    Ok(rests)
}

/// What the workers announce to one another.
#[derive(Drop)]
pub(crate) struct Signals {
    /// When each group has something to do next.
    pub(crate) moments: Moments,
    /// For each worker 1 as long as it rests or is about to. Whoever has something for it sets that to 0, and wakes it.
    rests: Vec<Apart<AtomicU64>>,
    /// How many workers rest, or are about to.
    resting: Apart<AtomicU64>,
    /// 0 as long as the run goes on. A thread that watches waits for it to change.
    ended: Apart<AtomicU64>,
}

impl Signals {
    /// Makes the signals of a run that goes on: no group has had a turn, and no worker rests. Only memory can be refused.
    pub(crate) fn new(
        alloc: Global,
        groups: usize,
        workers: usize,
        until: Time,
    ) -> Result<Self, AllocError> {
        let rests = awake(alloc, workers)?;
        match Moments::new(alloc, groups, workers, until) {
            Ok(moments) => Ok(Signals {
                moments,
                rests,
                resting: Apart::new(AtomicU64::new(0)),
                ended: Apart::new(AtomicU64::new(0)),
            }),
            Err(fault) => {
                drop(rests);
                Err(fault)
            }
        }
    }

    /// Wakes workers that rest and have a group that is due, after a turn was given or GVT was set.
    pub(crate) fn wake_due(&self) {
        if self.resting.value.load(Ordering::SeqCst) == 0 {
            return;
        }
        let limit_ns = self.moments.limit_ns();
        for group in 0..self.moments.groups() {
            if self.moments.is_due(group, limit_ns) {
                if let Some(worker) = self.moments.owner(group) {
                    self.wake(worker);
                }
            }
        }
    }

    /// Wakes the worker, if it rests.
    fn wake(&self, worker: usize) {
        if let Some(rests) = self.rests.get(worker) {
            if rests.value.load(Ordering::SeqCst) != 0 {
                rests.value.store(0, Ordering::SeqCst);
                rests.value.wake_all();
            }
        }
    }

    /// Notes that the worker is about to rest, and will be woken from here on. Before it rests it checks once more whether it should.
    pub(crate) fn begin_rest(&self, worker: usize) {
        self.resting.value.fetch_add(1, Ordering::SeqCst);
        if let Some(rests) = self.rests.get(worker) {
            rests.value.store(1, Ordering::SeqCst);
        }
    }

    /// The worker, which is the calling thread, rests until it is woken, or this time has passed, in microseconds.
    pub(crate) fn rest<T: Wait>(&self, rt: &T, worker: usize, most_us: u64) {
        if let Some(rests) = self.rests.get(worker) {
            rests
                .value
                .park_timeout(rt, 1, Duration::from_micros(most_us));
        }
    }

    /// Notes that the worker does not rest any more.
    pub(crate) fn end_rest(&self, worker: usize) {
        if let Some(rests) = self.rests.get(worker) {
            rests.value.store(0, Ordering::SeqCst);
        }
        self.resting.value.fetch_sub(1, Ordering::SeqCst);
    }

    /// The calling thread waits for `most_us` microseconds, unless the run ends.
    pub(crate) fn watch<T: Wait>(&self, rt: &T, most_us: u64) {
        self.ended
            .value
            .park_timeout(rt, 0, Duration::from_micros(most_us));
    }

    /// Whether the run has ended.
    pub(crate) fn is_ended(&self) -> bool {
        self.ended.value.load(Ordering::SeqCst) != 0
    }

    /// Ends the run: no worker rests from here on.
    pub(crate) fn end(&self) {
        self.ended.value.store(1, Ordering::SeqCst);
        self.ended.value.wake_all();
        for worker in 0..self.rests.len() {
            self.wake(worker);
        }
    }
}
