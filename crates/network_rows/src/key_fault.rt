//! What is wrong with one key of one row.
ghost use Rattle.std.specs.Prelude.{◌≡◌, if◌then◌else◌, Some, None};
ghost use Rattle.toml.specs.View.{view, table_view};
ghost use Rattle.network_rows.specs.declared.fault.KeyFault.TheVariants.{Missing};
ghost use Rattle.network_rows.specs.Faults.{applies, is_needed, fault_of_value, fault_in};

use crate::fault::KeyFault;
use crate::key::{Key, Word};
use crate::rule::{Presence, Rule};
use crate::value::{has_word, value_at};
use toml::{Table, Value};

impl Rule {
    /// Whether the row may have this key.
    pub fn applies(&self, row: &Table) -> bool
        ensures { result ≡ applies self.now.presence (table_view row.now) }
    {
        match self.presence {
            Presence::Required
            | Presence::Optional(_)
            | Presence::OptionalWord(_)
            | Presence::MayBeAbsent => true,
            Presence::ForSwitches => has_word(row, Key::Kind, Word::Switch),
        }
    }

    // Whether a row that may have this key must have it.
    fn is_needed(&self) -> bool
        ensures { result ≡ is_needed self.now.presence }
    {
        match self.presence {
            Presence::Required | Presence::ForSwitches => true,
            Presence::Optional(_) | Presence::OptionalWord(_) | Presence::MayBeAbsent => false,
        }
    }

    /// Returns what is wrong with this key of the row, if anything.
    pub fn fault_in(&self, row: &Table) -> Option<KeyFault>
        ensures { result ≡ fault_in self.now (table_view row.now) }
    {
        if !self.applies(row) {
            return None;
        }
        match value_at(row, self.key) {
            Some(value) => self.fault_of_value(row, value),
            None => self.fault_of_absence(),
        }
    }

    // Returns what is wrong if a row that may have this key lacks it.
    fn fault_of_absence(&self) -> Option<KeyFault>
        ensures { result ≡ (if is_needed self.now.presence then (Some Missing) else None) }
    {
        if self.is_needed() {
            Some(KeyFault::Missing)
        } else {
            None
        }
    }

    // Returns what is wrong with the value at this key of the row, if anything.
    fn fault_of_value(&self, row: &Table, value: &Value) -> Option<KeyFault>
        ensures { result ≡ fault_of_value self.now (table_view row.now) (Some (view value.now)) }
    {
        if !self.value_type.has(value) {
            Some(KeyFault::WrongKind)
        } else if !self.value_type.keeps_limit(row, value) {
            Some(KeyFault::OutOfLimit)
        } else {
            None
        }
    }
}
