//! What is done with a group of plain lists, over a locked exchange of lists.
ghost use Rattle.std.specs.Prelude.{◌≤◌, IfOk};

use super::boxes::Boxes;
use super::group::{Group, least_ns};
use std::alloc::{AllocError, Global};
use std::sync::atomic::{AtomicBool, AtomicU64, Ordering};
use std::sync::{Mutex, Wait};
use std::thread;
use turns::{Moments, Refusal, Report, Seat, Tasks, TurnRun, locked_soon};

// The number of the fault for lack of memory.
const MEMORY: u8 = 200;

#[derive(Drop)]
pub struct Fault {
    pub number: u8,
}

impl Refusal for Fault {
    ghost use Rattle.std.specs.Prelude.{◌≡◌};

    ghost rank = { λ fault. fault.number };

    ghost is_memory = { λ fault. fault.number ≡ 200 };

    ghost is_unstarted = { λ fault. fault.number ≡ 201 };

    fn number(&self) -> u8 {
        self.number
    }

    fn memory() -> Self {
        Fault { number: MEMORY }
    }

    fn unstarted() -> Self {
        Fault { number: 201 }
    }
}

impl From<AllocError> for Fault {
    fn from(_: AllocError) -> Self {
        Fault { number: MEMORY }
    }
}

// The greatest number of a group.
const GREATEST: u16 = 3;

pub struct PassingRun;

impl TurnRun for PassingRun {
    ghost groups = { 4 };
}

#[derive(Drop)]
pub struct Passing<'t, T> {
    rt: &'t T,
    boxes: Mutex<Boxes>,
    // For each group whether a thread holds it.
    taken: Vec<AtomicBool>,
    // How often a thread found a group that another one held.
    shared: AtomicU64,
    // How many groups were refused.
    refused: AtomicU64,
    faults: [u8; 3],
}

impl<'t, T: Wait> Passing<'t, T> {
    pub fn new(
        rt: &'t T,
        alloc: Global,
        groups: usize,
        faults: [u8; 3],
    ) -> Result<Self, AllocError> {
        let mut boxes = Vec::new(alloc);
        let mut floors_ns = Vec::new(alloc);
        let mut taken = Vec::new(alloc);
        for _ in 0..groups {
            boxes.push(Vec::new(alloc))?;
            floors_ns.push(0)?;
            taken.push(AtomicBool::new(false))?;
        }
        Ok(Passing {
            rt,
            boxes: Mutex::new(Boxes { boxes, floors_ns }),
            taken,
            shared: AtomicU64::new(0),
            refused: AtomicU64::new(0),
            faults,
        })
    }

    pub fn shared(&self) -> u64 {
        self.shared.load(Ordering::SeqCst)
    }

    // A thread takes a group.
    fn take(&self, group: &Group) {
        if let Some(taken) = self.taken.get(usize::from(group.number)) {
            if taken.swap(true, Ordering::SeqCst) {
                self.shared.fetch_add(1, Ordering::SeqCst);
            }
        }
    }

    // A thread lets a group go.
    fn give_back(&self, group: &Group) {
        if let Some(taken) = self.taken.get(usize::from(group.number)) {
            taken.store(false, Ordering::SeqCst);
        }
    }

    // Returns the fault of a group, if it has one, once all groups are refused.
    fn refuse(&self, group: &Group) -> Result<(), Fault> {
        let Some(number) = self.faults.get(usize::from(group.number)) else {
            return Ok(());
        };
        if *number == 0 {
            return Ok(());
        }
        self.refused.fetch_add(1, Ordering::SeqCst);
        for look in 0..100_000_000 {
            if self.refused.load(Ordering::SeqCst) >= 3 {
                break;
            }
            if look % 1024 == 1023 {
                thread::yield_now();
            }
        }
        Err(Fault { number: *number })
    }
}

// The group handles at most `most` tokens that are earlier than the limit, in ns. Returns how many.
fn handle_before(group: &mut Group, most: u32, limit_ns: u64) -> Result<u32, AllocError>
    ensures { IfOk result (λ count. count ≤ most) }
{
    for handled in 0..most {
        if !group.handle(limit_ns)? {
            return Ok(handled);
        }
    }
    Ok(most)
}

impl<T: Wait> Tasks<Group> for Passing<'_, T> {
    type Fault = Fault;

    type Run = PassingRun;

    ghost use Rattle.std.specs.Prelude.{⊤};

    ghost handles = { λ _ _ _ _ _. ⊤ };

    ghost stays = { λ _ _. ⊤ };

    fn report(&self, seat: &Seat<Group>) -> Report {
        let group = &seat.group;
        Report {
            number: group.number.min(GREATEST),
            next_ns: seat.next_ns,
            seen_ns: group.seen_ns,
            unposted: seat.unposted,
            letters_ns: least_ns(&group.abroad),
            has_block: group.has_block,
        }
    }

    fn next_ns(&self, group: &mut Group) -> u64 {
        group.next_ns()
    }

    fn handle(&self, group: &mut Group, most: u32, ahead_ns: u64) -> Result<u32, Fault> {
        self.refuse(group)?;
        self.take(group);
        let limit_ns = group.seen_ns.saturating_add(ahead_ns);
        let count = handle_before(group, most, limit_ns)?;
        self.give_back(group);
        Ok(count)
    }

    fn meet(
        &self,
        group: &mut Group,
        _: bool,
        moments: &Moments,
        letters_ns: &mut [u64],
    ) -> Result<u64, Fault> {
        self.take(group);
        let mut boxes = locked_soon(self.rt, &self.boxes);
        if let Some(letter_ns) = letters_ns.get_mut(usize::from(group.next())) {
            *letter_ns = least_ns(&group.abroad).min(*letter_ns);
        }
        boxes.post(group)?;
        let gvt_ns = boxes.gvt_ns();
        moments.publish(gvt_ns);
        group.seen_ns = gvt_ns;
        boxes.collect(group)?;
        drop(boxes);
        self.give_back(group);
        Ok(moments.collect(group.number))
    }

    fn publish(&self, moments: &Moments) -> Result<bool, Fault> {
        let Some(boxes) = self.boxes.try_lock() else {
            return Ok(false);
        };
        Ok(moments.publish(boxes.gvt_ns()))
    }

    fn let_go(&self, _: &mut Group) -> Result<(), Fault> {
        Ok(())
    }
}
