//! A worker: it gives groups their turns.
use crate::PAUSES;
use crate::agenda::{Agenda, Stealers};
use crate::common::Common;
use crate::handling::handle_due;
use crate::looks::Looks;
use crate::report::Report;
use crate::seat::Seat;
use crate::signals::Signals;
use crate::tasks::Tasks;
use std::alloc::{AllocError, Global};
use std::hint;
use std::sync::Wait;
use turn_words::Refusal;

/// A worker with these groups gives turns until the run is over or a refusal ends it. Its own refusal ends the others at their next turn.
pub(crate) fn give_turns<G: Drop, K: Tasks<G>, T: Wait>(
    rt: &T,
    alloc: Global,
    common: &Common<G, K>,
    stealers: &Stealers<K::Run>,
    agenda: Agenda<K::Run>,
) -> Result<(), K::Fault> {
    let outcome = match Worker::new(rt, alloc, common, stealers, agenda) {
        Ok(mut worker) => {
            let outcome = worker.turns_until_over();
            drop(worker);
            outcome
        }
        Err(_) => Err(K::Fault::memory()),
    };
    if outcome.is_err() {
        common.signals.moments.stop();
    }
    common.signals.end();
    outcome
}

/// What a worker has for itself, and what it shares with the others.
#[derive(Drop)]
struct Worker<'s, G, K: Tasks<G>, T> {
    rt: &'s T,
    common: &'s Common<G, K>,
    stealers: &'s Stealers<K::Run>,
    agenda: Agenda<K::Run>,
    /// For each group the least moment of the letters that were posted to it last, in ns.
    letters_ns: Vec<u64>,
    looks: Looks,
}

impl<'s, G: Drop, K: Tasks<G>, T: Wait> Worker<'s, G, K, T> {
    /// Makes a worker with these groups, which has given no turn. Only memory can be refused.
    fn new(
        rt: &'s T,
        alloc: Global,
        common: &'s Common<G, K>,
        stealers: &'s Stealers<K::Run>,
        agenda: Agenda<K::Run>,
    ) -> Result<Self, AllocError> {
        let letters_ns = vec![in alloc; u64::MAX; common.signals.moments.groups()]?;
        Ok(Worker {
            rt,
            common,
            stealers,
            agenda,
            letters_ns,
            looks: Looks::none(),
        })
    }

    /// Gives turns until the run is over.
    fn turns_until_over(&mut self) -> Result<(), K::Fault> {
        let rt = self.rt;
        for _ in rt.forever() {
            if self.common.signals.moments.is_over() {
                return Ok(());
            }
            if !self.own_turns()? && !self.turn_of_others()? {
                self.found_nothing()?;
            }
        }
        Ok(())
    }

    /// Gives a turn to each group of its own that no other worker has or stole: those that are due come first, the one that is furthest
    /// behind before the others. Returns whether a message was handled.
    fn own_turns(&mut self) -> Result<bool, K::Fault> {
        let common = self.common;
        let moments = &common.signals.moments;
        let limit_ns = moments.limit_ns();
        self.agenda.begin_round(moments, limit_ns);
        let mut has_worked = false;
        for place in 0..self.agenda.groups() {
            if let Some(group) = self.agenda.next(place) {
                if self.turn_of(group, limit_ns, true)? {
                    has_worked = true;
                }
            }
        }
        if has_worked {
            self.looks.work();
        }
        Ok(has_worked)
    }

    /// Gives a turn to a group of another worker, which may be off its core, if its own groups had nothing to do for a while. The more
    /// often that succeeded, the sooner it does so. First comes what the worker that is furthest behind has listed; a worker that is off
    /// its core lists nothing, so then comes any group that is due. Returns whether a message was handled.
    fn turn_of_others(&mut self) -> Result<bool, K::Fault> {
        if !self.looks.are_to_help() {
            return Ok(false);
        }
        let common = self.common;
        let moments = &common.signals.moments;
        let limit_ns = moments.limit_ns();
        let Some(behind) = moments.furthest_behind(self.agenda.worker, limit_ns) else {
            return Ok(false);
        };
        if let Some(group) = self.stolen(behind) {
            if self.help(group, limit_ns)? {
                return Ok(true);
            }
        }
        for group in 0..moments.groups() {
            if !moments.is_of(group, self.agenda.worker) && self.help(group, limit_ns)? {
                return Ok(true);
            }
        }
        Ok(false)
    }

    /// Returns the group that the worker of this group lists first and has not reached, if any.
    fn stolen(&self, group: usize) -> Option<usize> {
        let worker = self.common.signals.moments.owner(group)?;
        self.stealers.steal(worker)
    }

    /// Gives a turn to a group of another worker, if it has something to do before the limit, in ns. Returns whether a message was handled.
    fn help(&mut self, group: usize, limit_ns: u64) -> Result<bool, K::Fault> {
        let common = self.common;
        if !common.signals.moments.is_due(group, limit_ns)
            || !self.turn_of(group, limit_ns, false)?
        {
            return Ok(false);
        }
        self.looks.help();
        Ok(true)
    }

    /// Gives a turn to a group, unless another thread holds it. Events before the limit, in ns, are due. Returns whether a message was
    /// handled.
    fn turn_of(&mut self, group: usize, limit_ns: u64, is_own: bool) -> Result<bool, K::Fault> {
        let common = self.common;
        let Some(mut seat) = common.seats.try_take(group) else {
            return Ok(false);
        };
        let worked = self.turn(&mut seat, limit_ns, is_own);
        drop(seat);
        if !is_own {
            // Its worker may have gone to rest while the group was held here.
            common.signals.wake_due();
        }
        worked
    }

    /// Gives a group its turn. It meets the others first, if it must, and at the end, if it has letters for them. Returns whether a message
    /// was handled.
    fn turn(&mut self, seat: &mut Seat<G>, limit_ns: u64, is_own: bool) -> Result<bool, K::Fault> {
        let common = self.common;
        let report = common.tasks.report(seat);
        if is_to_meet(common, &report, limit_ns, self.looks.vain) {
            self.meet(seat)?;
        } else if !report.is_due(limit_ns, common.window_ns) {
            return Ok(false);
        }
        let has_worked = handle_due(common, seat)?;
        if common.tasks.report(seat).is_to_post(is_own) {
            self.meet(seat)?;
        }
        common.signals.wake_due();
        common.tasks.let_go(&mut seat.group)?;
        Ok(has_worked)
    }

    /// The group meets the others. Then it announces its letters to them, and only then its next event, which may be later.
    fn meet(&mut self, seat: &mut Seat<G>) -> Result<(), K::Fault> {
        let common = self.common;
        let tasks = &common.tasks;
        let moments = &common.signals.moments;
        let report = tasks.report(seat);
        let waits = report.waits_for_gvt(common.window_ns);
        let letters_ns = &mut self.letters_ns;
        let letter_ns = tasks.meet(&mut seat.group, waits, moments, letters_ns)?;
        // A letter in the tray must be worked on no later than an event of its moment.
        seat.next_ns = seat.next_ns.min(letter_ns);
        seat.unposted = 0;
        moments.call_all(letters_ns);
        moments.tell(report.number, seat.next_ns);
        Ok(())
    }

    /// Acts on a look in vain: it looks again soon, and rests after many looks. If it waits for GVT, or has waited for long, it sets GVT
    /// now and then.
    fn found_nothing(&mut self) -> Result<(), K::Fault> {
        let common = self.common;
        self.looks.look_in_vain();
        if self.looks.may_publish()
            && (self.looks.are_to_rest()
                || common.signals.moments.waits_for_gvt(self.agenda.worker))
        {
            publish(&common.tasks, &common.signals)?;
        }
        if self.looks.are_to_rest() {
            let most_us = self.looks.next_rest_us();
            rest(self.rt, common, self.agenda.worker, most_us);
        } else {
            pause();
        }
        Ok(())
    }
}

/// A worker that has looked in vain for long rests until a group of its own is due, unless one is.
fn rest<G: Drop, K: Tasks<G>, T: Wait>(rt: &T, common: &Common<G, K>, number: usize, most_us: u64) {
    let signals = &common.signals;
    signals.begin_rest(number);
    if !signals.moments.is_over() && !is_any_due(common, number) {
        signals.rest(rt, number, most_us);
    }
    signals.end_rest(number);
}

/// Whether a group of a worker that looked in vain for long has something to do, and no other thread holds it.
fn is_any_due<G: Drop, K: Tasks<G>>(common: &Common<G, K>, number: usize) -> bool {
    let moments = &common.signals.moments;
    let limit_ns = moments.limit_ns();
    for group in 0..moments.groups() {
        if moments.is_of(group, number) {
            if let Some(seat) = common.seats.try_take(group) {
                if is_to_go_on(common, &seat, limit_ns) {
                    return true;
                }
            }
        }
    }
    false
}

/// Whether a group whose worker looked in vain for long has something to do.
fn is_to_go_on<G: Drop, K: Tasks<G>>(common: &Common<G, K>, seat: &Seat<G>, limit_ns: u64) -> bool {
    let report = common.tasks.report(seat);
    report.is_due(limit_ns, common.window_ns) || is_to_meet(common, &report, limit_ns, u64::MAX)
}

/// Whether a group should meet the others before it goes on, by the moments that the workers announce. Events before the limit, in ns, are
/// due.
fn is_to_meet<G: Drop, K: Tasks<G>>(
    common: &Common<G, K>,
    report: &Report,
    limit_ns: u64,
    looks: u64,
) -> bool {
    let moments = &common.signals.moments;
    let letter_ns = moments.letter_ns(report.number);
    report.is_to_meet(
        letter_ns,
        moments.gvt_ns(),
        limit_ns,
        common.window_ns,
        looks,
    )
}

/// Sets GVT, if no other thread is at the exchange, and wakes workers that rest and now have something to do.
fn publish<G: Drop, K: Tasks<G>>(tasks: &K, signals: &Signals) -> Result<(), K::Fault> {
    if tasks.publish(&signals.moments)? {
        signals.wake_due();
    }
    Ok(())
}

/// A worker that looked in vain looks again soon.
fn pause() {
    for _ in 0..PAUSES {
        hint::spin_loop();
    }
}
