//! The order of a worker's turns: a deque of its groups that are due, from which other workers steal.
//!
//! The order of its groups has an exact clause. Which of them another worker steals first has none.
ghost use Rattle.std.specs.Prelude.{◌≡◌, ◌<◌, ◌≤◌, All, IfOk, IsPermutation, drop, length, slice_get, take};
ghost use Rattle.std.specs.List.Sorted.{IsNonDecreasingBy};
ghost use Rattle.std.specs.Option.{option_map};

use crate::common::Common;
use crate::moments::Moments;
use crate::tasks::Tasks;
use crate::{MOST_SLOTS, SLOTS};
use crossbeam_deque::{Steal, Stealer, Worker as Deque};
use std::alloc::{AllocError, Global};
use turn_words::{Hint, TurnRun};

/// A group of a worker, and the moment at which it has something to do, in ns, as the worker last saw it.
#[derive(Drop)]
struct Own<R: TurnRun> {
    hint: Hint<R>,
    first_ns: u64,
}

/// The groups of a worker. In each round a deque lists those that are due, the one that is furthest behind first. Others steal at the
/// front, where the worker pops.
#[derive(Drop)]
pub(crate) struct Agenda<R: TurnRun> {
    /// The number of the worker.
    pub worker: usize,
    own: Vec<Own<R>>,
    /// How many of them the deque took in this round.
    listed: usize,
    deque: Deque<Hint<R>>,
}

impl<R: TurnRun> Agenda<R> {
    /// Makes the agenda of the worker with this number, whose groups no thread holds yet. Only memory can be refused.
    fn of<G: Drop, K: Tasks<G, Run = R>>(
        alloc: Global,
        common: &Common<G, K>,
        worker: usize,
    ) -> Result<Self, AllocError> {
        let moments = &common.signals.moments;
        let mut own = Vec::new(alloc);
        for group in 0..moments.groups() {
            if moments.is_of(group, worker) {
                if let Some(seat) = common.seats.try_take(group) {
                    let hint = Hint::new(common.tasks.report(&seat).number);
                    own.push(Own { hint, first_ns: 0 })?;
                }
            }
        }
        Ok(Agenda {
            worker,
            own,
            listed: 0,
            deque: Deque::new_fifo(alloc, SLOTS)?,
        })
    }

    /// Returns the number of groups of the worker.
    pub(crate) fn groups(&self) -> usize {
        self.own.len()
    }

    /// Begins a round: lists the groups that are due before the limit, in ns, the one that is furthest behind first. Those that the deque
    /// does not take stand behind them.
    pub(crate) fn begin_round(&mut self, moments: &Moments, limit_ns: u64) {
        let due = self.put_in_order(moments, limit_ns);
        self.listed = 0;
        for place in 0..due {
            if !self.list(place) {
                return;
            }
            self.listed = self.listed.saturating_add(1);
        }
    }

    /// Looks when each group has something to do, and sorts them by that. Returns how many of them are due.
    fn put_in_order(&mut self, moments: &Moments, limit_ns: u64) -> usize {
        for own in self.own.iter_mut() {
            own.first_ns = moments.first_ns(usize::from(own.hint.group));
        }
        order(&mut self.own, limit_ns)
    }

    /// Lists the group at this place. Returns whether the deque took it. It does not if memory is refused, or if it has grown too large: a
    /// thread that is stopped while it steals keeps its slot, and the deque then grows without being full.
    fn list(&mut self, place: usize) -> bool {
        match self.own.get(place) {
            Some(own) => {
                self.deque.capacity() <= MOST_SLOTS && self.deque.push(own.hint.again()).is_ok()
            }
            None => false,
        }
    }

    /// Returns the group whose turn is number `place` of the round: first the listed ones that nobody stole, then the others in their
    /// order.
    pub(crate) fn next(&mut self, place: usize) -> Option<usize>
        ensures others { self.old.listed ≤ place → result ≡ option_map (λ own. own.hint.group) (slice_get self.old.own.items place) }
    {
        if place < self.listed {
            return match self.deque.pop() {
                Some(hint) => Some(usize::from(hint.group)),
                None => None,
            };
        }
        match self.own.get(place) {
            Some(own) => Some(usize::from(own.hint.group)),
            None => None,
        }
    }
}

/// Sorts groups by their moments, the earliest first. Returns how many of them are due before the limit, in ns: they come first.
fn order<R: TurnRun>(own: &mut Vec<Own<R>>, limit_ns: u64) -> usize
    ensures same { IsPermutation own.old.items own.new.items }
    ensures order { IsNonDecreasingBy (λ o. o.first_ns) own.new.items }
    ensures due { All (λ o. o.first_ns < limit_ns) (take result own.new.items) }
    ensures others { All (λ o. limit_ns ≤ o.first_ns) (drop result own.new.items) }
{
    own.sort_unstable_by_key(|own| own.first_ns);
    for place in 0..own.len() {
        if own[place].first_ns >= limit_ns {
            return place;
        }
    }
    own.len()
}

/// The fronts of all deques, by the numbers of their workers.
#[derive(Drop)]
pub(crate) struct Stealers<R: TurnRun> {
    stealers: Vec<Stealer<Hint<R>>>,
}

impl<R: TurnRun> Stealers<R> {
    /// Steals the group that the worker with this number lists first and has not reached, if any.
    pub(crate) fn steal(&self, worker: usize) -> Option<usize> {
        match self.stealers.get(worker)?.steal() {
            Steal::Success(hint) => Some(usize::from(hint.group)),
            Steal::Empty | Steal::Retry => None,
        }
    }
}

/// Makes the agenda of each worker, and the fronts of their deques. No thread holds a group yet. Only memory can be refused.
pub(crate) fn agendas_of<G: Drop, K: Tasks<G>>(
    alloc: Global,
    common: &Common<G, K>,
) -> Result<(Vec<Agenda<K::Run>>, Stealers<K::Run>), AllocError>
    ensures each { IfOk result (λ r. length r.0.items ≡ common.now.workers) }
{
    let mut agendas = Vec::new(alloc);
    let mut stealers = Vec::new(alloc);
    for worker in 0..common.workers {
        let agenda = Agenda::of(alloc, common, worker)?;
        stealers.push(agenda.deque.stealer()?)?;
        agendas.push(agenda)?;
    }
    Ok((agendas, Stealers { stealers }))
}
