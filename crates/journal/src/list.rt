//! The list of a journal's entries.
ghost use Rattle.std.specs.Prelude.{◌≡◌, ◌<◌, ◌⊎◌, [], ◌∷◌, ◌++◌, true, Some, is_some, length, slice_get, vec_len, vec_capacity, OnOk, IfErr};
ghost use Rattle.journal.specs.declared.fault.PoolFault.TheVariants.{OutOfMemory, Torn};
ghost use Rattle.journal.specs.Listing.{is_shared};

use crate::entry::Entry;
use crate::fault::PoolFault;
use crate::table::Table;
use std::alloc::Global;
use std::marker::Model;
use std::snapshot::Snapshot;

/// The entries that are stored, and the table whose places they have.
#[derive(Drop)]
pub(crate) struct Kept {
    pub(crate) entries: Vec<Entry>,
    pub(crate) table: Table,
}

/// The entries of a journal, in order. Each exists as a snapshot, which has no bytes and is read by proofs alone. If the entries are
/// stored, each exists once more as a value.
#[derive(Drop)]
pub struct Entries {
    told: Vec<Snapshot<Entry>>,
    kept: Option<Kept>,
}

impl Model for Entries {
    ghost use Rattle.std.specs.Prelude.{◌≡◌, ◌-◌, map, is_some, option_map, vec_len, vec_capacity, IfSome};
    ghost use Rattle.journal.specs.Listing.{Listing, is_shared, room_of};

    ghost Value = { Listing };

    ghost view = { λ e. record {
      entries = map (λ s. s.value) e.told.items;
      keeps = is_some e.kept;
      shared = is_shared (option_map (λ k. k.table) e.kept);
      room = room_of (vec_capacity e.told - vec_len e.told) (option_map (λ k. vec_capacity k.entries - vec_len k.entries) e.kept);
    } };

    ghost invariant = { λ e. IfSome e.kept (λ k. k.entries.items ≡ map (λ s. s.value) e.told.items) };
}

impl Kept {
    /// Makes room for one more entry, and then writes its place in the table.
    fn reserve(&mut self, place: u64) -> Result<(), PoolFault>
        ensures room { OnOk result (vec_len self.new.entries < vec_capacity self.new.entries) }
        ensures entries { self.new.entries.items ≡ self.old.entries.items }
        ensures table { self.new.table ≡ self.old.table }
        ensures faults { IfErr result (λ fault. (fault ≡ OutOfMemory) ⊎ ((fault ≡ Torn) × (self.old.table.shared ≡ true))) }
    {
        self.entries.reserve(1)?;
        if !self.table.write(place) {
            return Err(PoolFault::Torn);
        }
        Ok(())
    }
}

impl Entries {
    /// Makes an empty list. If a table is given, later entries are stored and take its places.
    pub fn new(alloc: Global, table: Option<Table>) -> Self
        ensures entries { result.entries ≡ [] }
        ensures keeps { result.keeps ≡ is_some table }
        ensures shared { result.shared ≡ is_shared table }
    {
        let told = Vec::new(alloc);
        match table {
            Some(table) => Entries {
                told,
                kept: Some(Kept {
                    entries: Vec::new(alloc),
                    table,
                }),
            },
            None => Entries { told, kept: None },
        }
    }

    /// Returns the number of entries.
    pub fn len(&self) -> usize
        ensures { result ≡ length self.now.entries }
    {
        self.told.len()
    }

    /// Makes room for one more entry, and then writes its place in the table. If entries are not stored, it takes no memory and writes
    /// nothing. `Torn` means that the table is shared and another journal wrote there before; this is checked after the room is made.
    pub fn reserve(&mut self) -> Result<(), PoolFault>
        ensures room { OnOk result (0 < self.new.room) }
        ensures entries { self.new.entries ≡ self.old.entries }
        ensures keeps { self.new.keeps ≡ self.old.keeps }
        ensures shared { self.new.shared ≡ self.old.shared }
        ensures faults { IfErr result (λ fault. (fault ≡ OutOfMemory) ⊎ ((fault ≡ Torn) × (self.old.keeps ≡ true) × (self.old.shared ≡ true))) }
    {
        self.told.reserve(1)?;
        let place = self.told.len() as u64;
        match &mut self.kept {
            Some(kept) => kept.reserve(place),
            None => Ok(()),
        }
    }

    /// Adds one entry, for which the room was made.
    pub fn push_reserved(&mut self, entry: Entry)
        requires { 0 < self.old.room }
        ensures entries { self.new.entries ≡ self.old.entries ++ entry ∷ [] }
        ensures keeps { self.new.keeps ≡ self.old.keeps }
        ensures shared { self.new.shared ≡ self.old.shared }
    {
        self.told.push_reserved(Snapshot::of(&entry));
        if let Some(kept) = &mut self.kept {
            kept.entries.push_reserved(entry);
        }
    }

    /// Returns the entry number `at`, from 0, if entries are stored.
    pub fn get(&self, at: usize) -> &Entry
        requires keeps { self.now.keeps ≡ true }
        requires there { at < length self.now.entries }
        ensures { slice_get self.now.entries at ≡ Some result.now }
    {
        match &self.kept {
            Some(kept) => &kept.entries[at],
            None => unreachable!(),
        }
    }
}
