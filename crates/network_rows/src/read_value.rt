//! Reads the values at the keys of a table without a fault, and makes values of rows of them.
ghost use Rattle.std.specs.Prelude.{◌≡◌, true, false, Some, IfOk, IfSome, is_some, option_map, option_and_then};
ghost use Rattle.toml.specs.Data.{as_str};
ghost use Rattle.toml.specs.View.{view, table_view};
ghost use Rattle.network_rows.specs.declared.rule.Presence.TheVariants.{MayBeAbsent, Optional};
ghost use Rattle.network_rows.specs.declared.rule.ValueType.TheVariants.{Integer};
ghost use Rattle.network_rows.specs.Values.{as_paths};
ghost use Rattle.network_rows.specs.Faults.{is_needed};
ghost use Rattle.network_rows.specs.Sound.{IsOfNumbers, IsSoundAt, HasNumbers};
ghost use Rattle.network_rows.specs.Rows.{IsNumberAt, IsNumberIfAt};
ghost use Rattle.network_rows.specs.Within.{Allows};

use crate::paths::Paths;
use crate::rule::{Presence, Rule};
use crate::value::number_in;
use row_types::Name;
use std::alloc::{AllocError, Global};
use toml::{Table, Value};
use vlink::FrameSize;

/// Returns the number at this key, or the default if the key is optional and absent.
pub fn number_at(rule: Rule, row: &Table) -> u64
    requires numbers { HasNumbers rule }
    requires sound { IsSoundAt rule (table_view row.now) }
    ensures number { IsNumberAt rule (table_view row.now) result }
    ensures within { Allows rule result }
{
    match number_in(row, rule.key) {
        Some(n) => n,
        None => rule.number_if_absent(),
    }
}

impl Rule {
    // Returns the number that an absent key means.
    fn number_if_absent(self) -> u64
        requires absent { is_needed self.presence ≡ false }
        requires numbers { HasNumbers self }
        ensures { self.presence ≡ Optional result }
    {
        match self.presence {
            Presence::Optional(default) => default,
            Presence::Required
            | Presence::ForSwitches
            | Presence::OptionalWord(_)
            | Presence::MayBeAbsent => unreachable!(),
        }
    }
}

/// Returns the number at this key, if the row has the key.
pub fn number_if(rule: Rule, row: &Table) -> Option<u64>
    requires numbers { IsOfNumbers rule.value_type }
    requires sound { IsSoundAt rule (table_view row.now) }
    requires absent { rule.presence ≡ MayBeAbsent }
    ensures number { IsNumberIfAt rule (table_view row.now) result }
    ensures within { IfSome result (Allows rule) }
{
    number_in(row, rule.key)
}

/// Returns the size at this key, if the row has the key.
pub fn size_if(rule: Rule, row: &Table) -> Option<FrameSize>
    requires numbers { rule.value_type ≡ Integer 64 1518 }
    requires sound { IsSoundAt rule (table_view row.now) }
    requires absent { rule.presence ≡ MayBeAbsent }
    ensures { IsNumberIfAt rule (table_view row.now) result }
{
    match number_if(rule, row) {
        Some(n) => Some(FrameSize::new(n as u16).unwrap()),
        None => None,
    }
}

/// Makes the name of a value, which is a name.
pub fn name_of(value: Option<Value>) -> Name
    requires { is_some (option_and_then as_str (option_map view value)) ≡ true }
    ensures { option_and_then as_str (option_map view value) ≡ Some result }
{
    match value {
        Some(value) => name_of_value(value),
        None => unreachable!(),
    }
}

/// Makes the name of a text.
pub fn name_of_value(value: Value) -> Name
    requires { is_some (as_str (view value)) ≡ true }
    ensures { as_str (view value) ≡ Some result }
{
    match value {
        Value::String(text) => Name::from_string(text),
        _ => unreachable!(),
    }
}

/// Makes the paths of a value, which is a list of paths.
pub fn paths_of(alloc: Global, value: Option<Value>) -> Result<Paths, AllocError>
    requires { is_some (option_and_then as_paths (option_map view value)) ≡ true }
    ensures { IfOk result (λ paths. option_and_then as_paths (option_map view value) ≡ Some paths) }
{
    match value {
        Some(value) => Paths::from_value(alloc, value),
        None => unreachable!(),
    }
}
