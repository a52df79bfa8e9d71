//! What a group did, as steps of the laws of virtual time.
ghost use Rattle.std.specs.Prelude.{◌≡◌, ◌+◌, ◌<◌, ◌≤◌, [], ◌∷◌, ◌++◌, true, Some, OnOk, length};
ghost use Rattle.group_queues.specs.Block.{steps_of_word, steps_told};

use std::alloc::{AllocError, Global};
use std::marker::Model;
use std::snapshot::Snapshot;

/// Steps of one member, in order.
#[derive(Clone, Copy)]
pub enum Word {
    /// Run and Post.
    Ran { process: u16 },
    /// Take of the first letter that the group sent it, and Arrive.
    Home { process: u16 },
    /// Take of the first letter that the group sent it.
    Taken { process: u16 },
    /// Arrive, and Post.
    Arrived { process: u16 },
    /// Commit.
    Committed { process: u16 },
}

/// What a group did, in order. Each word exists as a snapshot, which has no bytes and is read by proofs alone. If the journal is stored,
/// each word exists once more as a value.
#[derive(Drop)]
pub struct Words {
    told: Vec<Snapshot<Word>>,
    /// How many of the words represent two steps; the others represent one.
    long: usize,
    kept: Option<Vec<Word>>,
}

impl Model for Words {
    ghost use Rattle.std.specs.Prelude.{◌≡◌, ◌+◌, ◌-◌, length, map, is_some, option_map, vec_len, vec_capacity, IfSome};
    ghost use Rattle.group_queues.specs.Block.{Block, room_of, steps_told};

    ghost Value = { Block };

    ghost view = { λ b. record {
      words = map (λ s. s.value) b.told.items;
      keeps = is_some b.kept;
      room = room_of (vec_capacity b.told - vec_len b.told) (option_map (λ k. vec_capacity k - vec_len k) b.kept);
    } };

    ghost invariant = { λ b. (IfSome b.kept (λ k. k.items ≡ map (λ s. s.value) b.told.items))
        × (length (steps_told (map (λ s. s.value) b.told.items)) ≡ length b.told.items + b.long) };
}

impl Words {
    /// Makes a list without words. `keeps` states whether later words are stored.
    pub fn new(alloc: Global, keeps: bool) -> Self
        ensures words { result.words ≡ [] }
        ensures keeps { result.keeps ≡ keeps }
    {
        Words {
            told: Vec::new(alloc),
            long: 0,
            kept: if keeps { Some(Vec::new(alloc)) } else { None },
        }
    }

    /// Makes room for `more` words: as long as no other call comes between, this many calls of `push_reserved` have room. If words are not
    /// stored it takes no memory.
    #[inline(always)]
    pub(crate) fn reserve(&mut self, more: usize) -> Result<(), AllocError>
        ensures room { OnOk result (more ≤ self.new.room) }
        ensures words { self.new.words ≡ self.old.words }
        ensures keeps { self.new.keeps ≡ self.old.keeps }
    {
        self.told.reserve(more)?;
        if let Some(kept) = &mut self.kept {
            kept.reserve(more)?;
        }
        Ok(())
    }

    /// Adds one word. The room for it was made before.
    #[inline(always)]
    pub(crate) fn push_reserved(&mut self, did: Word)
        requires { 0 < self.old.room }
        ensures words { self.new.words ≡ self.old.words ++ did ∷ [] }
        ensures keeps { self.new.keeps ≡ self.old.keeps }
        ensures room { self.old.room ≤ self.new.room + 1 }
    {
        self.long += more_steps(&did);
        self.told.push_reserved(Snapshot::of(&did));
        if let Some(kept) = &mut self.kept {
            kept.push_reserved(did);
        }
    }

    /// Returns the number of steps that the words represent.
    pub fn steps(&self) -> u64
        ensures { result ≡ length (steps_told self.now.words) }
    {
        (self.told.len() + self.long) as u64
    }

    /// Whether the words are stored to be read.
    pub fn keeps(&self) -> bool
        ensures { result ≡ self.now.keeps }
    {
        self.kept.is_some()
    }

    /// Returns the words, if they are stored.
    pub fn list(&self) -> &[Word]
        requires { self.now.keeps ≡ true }
        ensures { result.now ≡ self.now.words }
    {
        match &self.kept {
            Some(kept) => kept.as_slice(),
            None => unreachable!(),
        }
    }
}

/// Returns how many steps a word represents besides the first: one or none.
#[inline(always)]
fn more_steps(did: &Word) -> usize
    ensures few { result ≤ 1 }
    ensures steps { length (steps_of_word did.now) ≡ 1 + result }
{
    match did {
        Word::Ran { .. } | Word::Home { .. } | Word::Arrived { .. } => 1,
        Word::Taken { .. } | Word::Committed { .. } => 0,
    }
}
