//! The mail: a queue of letters for each process.
ghost use Rattle.std.specs.Prelude.{◌≡◌, ◌≢◌, ℕ, ◌<◌, ◌≤◌, [], ◌++◌, length, map, remove, slice_get, All, IsOk, OnOk, OnErr, IfOk};
ghost use Rattle.std.specs.Option.{option_map};
ghost use Rattle.virtual_time.specs.Law.{received_by};
ghost use Rattle.vlink.specs.Order.{message_order};
ghost use Rattle.antimessages.specs.Mailing.{letters_for, room_for, HasRoom};

use crate::ends::take_at;
use crate::fault::OutOfMemory;
use crate::outbox::Outbox;
use crate::posting::{push_all, put_all, reserve_all};
use std::alloc::Global;
use std::collections::VecDeque;
use std::marker::Model;
use std::mem;
use vlink::{Letter, process_number};

/// The letters that were posted and not taken. Each process has those that it receives, in the order in which they were posted. Processes
/// are numbered from 0.
#[derive(Drop)]
pub struct Mail {
    boxes: Vec<VecDeque<Letter>>,
}

impl Model for Mail {
    ghost use Rattle.std.specs.Prelude.{◌<◌, List, length, map};
    ghost use Rattle.antimessages.specs.Letters.{Store};
    ghost use Rattle.antimessages.specs.Mailing.{store_of};

    ghost Value = { List Store };

    ghost view = { λ m. map store_of m.boxes.items };

    ghost invariant = { λ m. length m.boxes.items < 65536 };
}

impl Mail {
    /// Makes mail without letters for `processes` processes. For 0 processes it takes no memory.
    pub fn new(alloc: Global, processes: u16) -> Result<Self, OutOfMemory>
        ensures processes { IfOk result (λ mail. length mail ≡ processes) }
        ensures none { IfOk result (λ mail. (p : ℕ) → letters_for p mail ≡ []) }
        ensures reserved { processes ≡ 0 → IsOk result }
    {
        let mut boxes = Vec::new(alloc);
        boxes.reserve(usize::from(processes))?;
        for process in 0..processes {
            boxes.push_reserved(VecDeque::new(alloc));
        }
        Ok(Mail { boxes })
    }

    /// Makes the mail of `processes` processes, to which the letters of the outbox are posted. Its time is proportional to the number of
    /// letters; `post` is made for the few letters of one event. For 0 processes it takes no memory.
    pub fn with_letters(alloc: Global, processes: u16, outbox: &Outbox) -> Result<Self, OutOfMemory>
        requires { All (λ letter. letter.message.receiver < processes) outbox.now.letters }
        ensures processes { IfOk result (λ mail. length mail ≡ processes) }
        ensures letters { IfOk result (λ mail. (p : ℕ) → letters_for p mail ≡ received_by message_order p outbox.now.letters) }
        ensures reserved { processes ≡ 0 → IsOk result }
    {
        let Mail { mut boxes } = Mail::new(alloc, processes)?;
        push_all(&mut boxes, &outbox.letters)?;
        Ok(Mail { boxes })
    }

    /// Returns the number of processes.
    pub fn processes(&self) -> u16
        ensures { result ≡ length self.now }
    {
        process_number(self.boxes.len())
    }

    /// Returns the number of letters for this process; 0 if the process does not exist.
    pub fn count(&self, process: u16) -> usize
        ensures { result ≡ length (letters_for process self.now) }
    {
        match self.boxes.get(usize::from(process)) {
            Some(letters) => letters.len(),
            None => 0,
        }
    }

    /// Returns the letter number `place`, from 0, of those for this process: the one that `take` would return. None if no letter has that
    /// number.
    pub fn look(&self, process: u16, place: usize) -> Option<Letter>
        ensures { result ≡ slice_get (letters_for process self.now) place }
    {
        match self.boxes.get(usize::from(process)) {
            Some(letters) => letters.get(place).copied(),
            None => None,
        }
    }

    /// Removes and returns the letter number `place`, from 0, of those for this process; the others keep their order. If no letter has that
    /// number, or the process does not exist, it returns none and changes nothing.
    #[inline(always)]
    pub fn take(&mut self, process: u16, place: usize) -> Option<Letter>
        ensures taken { result ≡ slice_get (letters_for process self.old) place }
        ensures left { letters_for process self.new ≡ remove (letters_for process self.old) place }
        ensures others { (q : ℕ) → q ≢ process → letters_for q self.new ≡ letters_for q self.old }
        ensures processes { length self.new ≡ length self.old }
    {
        if usize::from(process) >= self.boxes.len() {
            return None;
        }
        take_at(&mut self.boxes[usize::from(process)], place)
    }

    /// Moves all letters for this process to `letters`, which must be empty. No letter is copied: the two queues change places, with their
    /// room.
    pub fn take_all(&mut self, process: u16, letters: &mut VecDeque<Letter>)
        requires { letters.old.items ≡ [] }
        ensures taken { letters.new.items ≡ letters_for process self.old }
        ensures left { letters_for process self.new ≡ [] }
        ensures others { (q : ℕ) → q ≢ process → letters_for q self.new ≡ letters_for q self.old }
        ensures processes { length self.new ≡ length self.old }
    {
        if usize::from(process) >= self.boxes.len() {
            return;
        }
        mem::swap(&mut self.boxes[usize::from(process)], letters);
    }

    /// Makes room, so that `post` of this outbox takes no memory as long as no other call comes between. It can be refused only if some
    /// process has less room.
    pub fn reserve(&mut self, outbox: &Outbox) -> Result<(), OutOfMemory>
        requires { All (λ letter. letter.message.receiver < length self.old) outbox.now.letters }
        ensures same { (p : ℕ) → letters_for p self.new ≡ letters_for p self.old }
        ensures processes { length self.new ≡ length self.old }
        ensures room { OnOk result (HasRoom self.new outbox.now.letters) }
        ensures no_less { (p : ℕ) → room_for p self.old ≤ room_for p self.new }
        ensures reserved { HasRoom self.old outbox.now.letters → IsOk result }
    {
        reserve_all(&mut self.boxes, &outbox.letters)
    }

    /// Moves the letters of the outbox, in order, to the back of the mail of their receivers, and leaves the outbox empty. If the room was
    /// made before, it takes no memory and succeeds. A refusal changes nothing.
    pub fn post(&mut self, outbox: &mut Outbox) -> Result<(), OutOfMemory>
        requires { All (λ letter. letter.message.receiver < length self.old) outbox.old.letters }
        ensures posted { OnOk result ((p : ℕ) → letters_for p self.new ≡ letters_for p self.old ++ received_by message_order p outbox.old.letters) }
        ensures emptied { OnOk result (outbox.new.letters ≡ []) }
        ensures unchanged { OnErr result ((p : ℕ) → letters_for p self.new ≡ letters_for p self.old) }
        ensures kept { OnErr result (outbox.new.letters ≡ outbox.old.letters) }
        ensures processes { length self.new ≡ length self.old }
        ensures reserved { HasRoom self.old outbox.old.letters → IsOk result }
    {
        reserve_all(&mut self.boxes, &outbox.letters)?;
        put_all(&mut self.boxes, &outbox.letters);
        outbox.letters.clear();
        Ok(())
    }
}
