//! Letters on their way between groups.
ghost use Rattle.std.specs.Prelude.{◌≡◌, ◌≢◌, ℕ, ◌<◌, [], ◌++◌, map, flat_map, length, slice_get, slice_index, All, OnOk, IfOk, IfSome};
ghost use Rattle.virtual_time.specs.Law.{lowest, plus_of, times_of};
ghost use Rattle.vlink.specs.Order.{message_order};
ghost use Rattle.group_boxes.specs.Boxing.{HasRoom, box_of, for_group, waiting_for};

use crate::carrying::{clear_box, count_for, least_time, make_room, owner_of, push_all, put_all};
use antimessages::OutOfMemory;
use std::alloc::Global;
use std::marker::Model;
use vlink::{Letter, Message, Time};

/// The letters that were posted and not collected: for each group those that its processes receive, in the order in which they were posted.
/// Groups and processes are numbered from 0. Each group has fewer than 2 ^ 32 of them, so that a step of the journal can name the place of
/// each.
#[derive(Drop)]
pub struct Boxes {
    boxes: Vec<Vec<Letter>>,
    /// For each process the number of its group.
    owners: Vec<u16>,
}

impl Model for Boxes {
    ghost use Rattle.std.specs.Prelude.{◌<◌, map, length, All, vec_len, vec_capacity};
    ghost use Rattle.group_boxes.specs.Boxing.{AreShort, Boxes as Boxed, room_in};

    ghost Value = { Boxed };

    ghost view = { λ b. record {
      boxes = map (λ x. x.items) b.boxes.items;
      owners = b.owners.items;
      rooms = map (λ x. room_in (vec_capacity x) (vec_len x)) b.boxes.items;
    } };

    // each process is of some group
    ghost invariant = { λ b. All (λ owner. owner < length b.boxes.items) b.owners.items × AreShort (map (λ x. x.items) b.boxes.items) };
}

impl Boxes {
    /// Makes a box for each group, with the letters that bring these messages. `owners` has for each process the number of its group.
    pub fn with_offers(
        alloc: Global,
        groups: u16,
        owners: Vec<u16>,
        offers: &[Message],
    ) -> Result<Self, OutOfMemory>
        requires each { All (λ owner. owner < groups) owners.items }
        requires receivers { All (λ m. m.receiver < length owners.items) offers.now }
        ensures owners { IfOk result (λ b. b.owners ≡ owners.items) }
        ensures count { IfOk result (λ b. length b.boxes ≡ groups) }
        ensures letters { IfOk result (λ b. (g : ℕ) → g < groups → box_of b.boxes g ≡ for_group message_order owners.items g (map plus_of offers.now)) }
    {
        let mut boxes = Vec::with_capacity(alloc, usize::from(groups))?;
        for group in 0..groups {
            boxes.push_reserved(Vec::new(alloc));
        }
        push_all(&mut boxes, &owners, offers)?;
        Ok(Boxes { boxes, owners })
    }

    /// Returns the group of this process, or none if the process does not exist.
    pub fn owner(&self, process: u16) -> Option<u16>
        ensures is { result ≡ slice_get self.now.owners process }
        ensures within { IfSome result (λ group. group < length self.now.boxes) }
    {
        owner_of(&self.owners, process)
    }

    /// Returns the letters for a group, the oldest first.
    pub fn letters(&self, group: u16) -> &[Letter]
        requires { group < length self.now.boxes }
        ensures { result.now ≡ box_of self.now.boxes group }
    {
        let letters = &self.boxes[usize::from(group)];
        letters.as_slice()
    }

    /// Returns how many letters are in transit to a process; 0 if the process does not exist.
    pub fn waiting_count(&self, process: u16) -> u32
        ensures { result ≡ waiting_for self.now process }
    {
        match owner_of(&self.owners, process) {
            Some(owner) => count_for(&self.boxes[usize::from(owner)], process),
            None => 0,
        }
    }

    /// Makes room for `more` letters in each box.
    pub fn reserve(&mut self, more: usize) -> Result<(), OutOfMemory>
        ensures room { OnOk result (HasRoom more self.new.rooms) }
        ensures boxes { self.new.boxes ≡ self.old.boxes }
        ensures owners { self.new.owners ≡ self.old.owners }
    {
        make_room(&mut self.boxes, more)?;
        Ok(())
    }

    /// Puts the letters, in order, at the backs of the boxes of their receivers' groups. The room for them was made before.
    pub fn post_reserved(&mut self, letters: &[Letter])
        requires receivers { All (λ l. l.message.receiver < length self.old.owners) letters.now }
        requires room { HasRoom (length letters.now) self.old.rooms }
        ensures posted { (g : ℕ) → g < length self.old.boxes → box_of self.new.boxes g ≡ box_of self.old.boxes g ++ for_group message_order self.old.owners g letters.now }
        ensures count { length self.new.boxes ≡ length self.old.boxes }
        ensures owners { self.new.owners ≡ self.old.owners }
    {
        put_all(&mut self.boxes, &self.owners, letters);
    }

    /// Removes all letters for a group. Large room is given back.
    pub fn clear(&mut self, group: u16)
        requires { group < length self.old.boxes }
        ensures cleared { box_of self.new.boxes group ≡ [] }
        ensures others { (g : ℕ) → g ≢ group → box_of self.new.boxes g ≡ box_of self.old.boxes g }
        ensures count { length self.new.boxes ≡ length self.old.boxes }
        ensures owners { self.new.owners ≡ self.old.owners }
    {
        clear_box(&mut self.boxes[usize::from(group)]);
    }

    /// Returns the least time of all letters, or the moment if that is earlier.
    pub fn earliest_time(&self, moment: Time) -> Time
        ensures { result ≡ lowest moment (times_of message_order (flat_map (λ box. box) self.now.boxes)) }
    {
        least_time(&self.boxes, moment)
    }
}
