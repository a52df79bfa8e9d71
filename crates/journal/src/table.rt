//! The table to which journals write their entries. One number replaces a cell for each place, since a journal writes its places in order.
ghost use Rattle.std.specs.Prelude.{◌≡◌, true, false, OnOk, OnErr, IfOk};

use std::alloc::{AllocError, Global};
use std::marker::Model;
use std::sync::Arc;
use std::sync::atomic::{AtomicU64, Ordering};

/// A table of entries, of which each place is written once. Everyone who shares the table can write there. So of several journals over one
/// table only one has the entry of a place. The entries lie in the journals. Clauses see whether the table is shared.
#[derive(Drop)]
pub struct Table {
    /// How many places are written, from the first one on. None if the table is not shared: then its journal alone writes there.
    written: Option<Arc<AtomicU64>>,
}

impl Model for Table {
    ghost use Rattle.std.specs.Prelude.{is_some};
    ghost use Rattle.journal.specs.Listing.{Sharing};

    ghost Value = { Sharing };

    ghost view = { λ t. record { shared = is_some t.written } };
}

impl Table {
    /// Makes a table without a written place, which is not shared. Takes no memory.
    pub fn new() -> Table
        ensures { result.shared ≡ false }
    {
        Table { written: None }
    }

    /// Returns the same table, for one more journal. It fails only if memory is refused, or if the table has 2^63 journals.
    pub fn share(&mut self, alloc: Global) -> Result<Table, AllocError>
        ensures other { IfOk result (λ table. table.shared ≡ true) }
        ensures shared { OnOk result (self.new.shared ≡ true) }
        ensures unchanged { OnErr result (self.new ≡ self.old) }
    {
        let written = match &self.written {
            Some(written) => written.clone()?,
            None => Arc::new(alloc, AtomicU64::new(0))?,
        };
        let other = written.clone()?;
        self.written = Some(written);
        Ok(Table {
            written: Some(other),
        })
    }

    /// Writes the place `at`, from 0, behind the places that this journal wrote. Returns false if the table is shared and another journal
    /// wrote there before. Takes no memory.
    pub(crate) fn write(&self, at: u64) -> bool
        ensures { self.now.shared ≡ false → result ≡ true }
    {
        match &self.written {
            Some(written) => written
                .compare_exchange(at, at.saturating_add(1), Ordering::SeqCst, Ordering::SeqCst)
                .is_ok(),
            None => true,
        }
    }
}
