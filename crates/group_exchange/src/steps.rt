//! The journal of a run by groups: steps of the laws of virtual time.
ghost use Rattle.std.specs.Prelude.{◌≡◌, ◌+◌, ◌<◌, ◌≤◌, ◌^◌, [], ◌∷◌, ◌++◌, true, map, length, OnOk, IfErr};
ghost use Rattle.virtual_time.specs.Law.{behind};
ghost use Rattle.virtual_time.specs.declared.step.Step.TheVariants.{Take, Gvt};
ghost use Rattle.journal.specs.declared.fault.PoolFault.TheVariants.{OutOfMemory};
ghost use Rattle.group_queues.specs.Block.{steps_told};
ghost use Rattle.group_boxes.specs.Boxing.{box_of, waiting_for};

use crate::addition::Addition;
use crate::listing::{list_block, list_takes};
use group_boxes::Boxes;
use group_hand::Words;
use journal::PoolFault;
use std::alloc::Global;
use std::marker::Model;
use std::snapshot::Snapshot;
use vlink::Step;

/// The steps of a journal, in order. They exist as what was added at each go, in snapshots, which have no bytes and are read by proofs
/// alone. If the steps are stored, they exist once more as values.
#[derive(Drop)]
pub struct Steps {
    told: Vec<Snapshot<Addition>>,
    /// The number of steps.
    count: u64,
    kept: Option<Vec<Step>>,
}

impl Model for Steps {
    ghost use Rattle.std.specs.Prelude.{◌≡◌, ◌-◌, flat_map, is_some, length, option_map, vec_len, vec_capacity, IfSome};
    ghost use Rattle.group_exchange.specs.Listing.{StepList, room_of};

    ghost Value = { StepList };

    ghost use Rattle.group_exchange.specs.Telling.{steps_by};

    ghost view = { λ s. record {
      steps = flat_map (λ t. steps_by t.value) s.told.items;
      keeps = is_some s.kept;
      room = room_of (vec_capacity s.told - vec_len s.told) (option_map (λ k. vec_capacity k - vec_len k) s.kept);
    } };

    ghost invariant = { λ s. (s.count ≡ length (flat_map (λ t. steps_by t.value) s.told.items))
        × IfSome s.kept (λ k. k.items ≡ flat_map (λ t. steps_by t.value) s.told.items) };
}

impl Steps {
    /// No step, and whether those that come are kept.
    pub fn new(alloc: Global, keeps: bool) -> Self
        ensures steps { result.steps ≡ [] }
        ensures keeps { result.keeps ≡ keeps }
    {
        Steps {
            told: Vec::new(alloc),
            count: 0,
            kept: if keeps { Some(Vec::new(alloc)) } else { None },
        }
    }

    /// Returns the number of steps.
    pub fn len(&self) -> u64
        ensures { result ≡ length self.now.steps }
    {
        self.count
    }

    /// Makes room for `more` steps. Where they are not kept it takes no memory.
    pub fn reserve(&mut self, more: usize) -> Result<(), PoolFault>
        ensures room { OnOk result (more ≤ self.new.room) }
        ensures steps { self.new.steps ≡ self.old.steps }
        ensures keeps { self.new.keeps ≡ self.old.keeps }
        ensures memory { IfErr result (λ fault. fault ≡ OutOfMemory) }
    {
        self.told.reserve(more)?;
        if let Some(kept) = &mut self.kept {
            kept.reserve(more)?;
        }
        Ok(())
    }

    /// Adds a Take for each letter for a group, the first of the mail of its receiver. The room for these steps, and for at least one, was
    /// made before.
    pub fn collect(&mut self, boxes: &Boxes, group: u16)
        requires within { group < length boxes.now.boxes }
        requires some { 0 < self.old.room }
        requires room { length (box_of boxes.now.boxes group) ≤ self.old.room }
        requires few { length self.old.steps + length (box_of boxes.now.boxes group) < 2 ^ 63 }
        ensures steps { self.new.steps ≡ self.old.steps ++ map (λ l. Take l.message.receiver 0) (box_of boxes.now.boxes group) }
        ensures keeps { self.new.keeps ≡ self.old.keeps }
    {
        let letters = boxes.letters(group);
        self.count += letters.len() as u64;
        self.told.push_reserved(Snapshot::of(&Addition::Collected(group, Snapshot::of(boxes))));
        if let Some(kept) = &mut self.kept {
            list_takes(kept, letters);
        }
    }

    /// A group did these words, which are `count` steps, each Take behind the letters that are on their way. There is room for these steps, and for
    /// one at the least.
    pub fn post(&mut self, words: &Words, boxes: &Boxes, count: u64)
        requires count { count ≡ length (steps_told words.now.words) }
        requires kept { self.old.keeps ≡ true → words.now.keeps ≡ true }
        requires some { 0 < self.old.room }
        requires room { count ≤ self.old.room }
        requires few { length self.old.steps + count < 2 ^ 63 }
        ensures steps { self.new.steps ≡ self.old.steps ++ map (behind (waiting_for boxes.now)) (steps_told words.now.words) }
        ensures keeps { self.new.keeps ≡ self.old.keeps }
    {
        self.count += count;
        self.told.push_reserved(Snapshot::of(&Addition::Posted(
            Snapshot::of(words),
            Snapshot::of(boxes),
        )));
        if let Some(kept) = &mut self.kept {
            list_block(kept, words, boxes);
        }
    }

    /// Adds that GVT was set. The room for this step was made before.
    pub fn publish(&mut self)
        requires room { 0 < self.old.room }
        requires few { length self.old.steps < 2 ^ 63 }
        ensures steps { self.new.steps ≡ self.old.steps ++ Gvt ∷ [] }
        ensures keeps { self.new.keeps ≡ self.old.keeps }
    {
        self.count += 1;
        self.told.push_reserved(Snapshot::of(&Addition::Published));
        if let Some(kept) = &mut self.kept {
            kept.push_reserved(Step::Gvt);
        }
    }

    /// Returns the steps, if they are stored.
    pub fn list(&self) -> &[Step]
        requires { self.now.keeps ≡ true }
        ensures { result.now ≡ self.now.steps }
    {
        match &self.kept {
            Some(kept) => kept.as_slice(),
            None => unreachable!(),
        }
    }
}
