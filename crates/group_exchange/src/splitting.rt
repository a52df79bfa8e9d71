//! Splits actors into groups.
ghost use Rattle.std.specs.Prelude.{◌≡◌, ℕ, ◌<◌, true, false, map, length, slice_get, Some, None, OnOk, IfOk};
ghost use Rattle.group_exchange.specs.Views.{is_of};

use std::alloc::{AllocError, Global};

/// Wraps each item as one that exists.
pub(crate) fn some_of<R: Drop>(alloc: Global, items: Vec<R>) -> Result<Vec<Option<R>>, AllocError>
    ensures { IfOk result (λ slots. slots.items ≡ map (λ x. Some x) items.items) }
{
    let mut slots = Vec::with_capacity(alloc, items.len())?;
    for item in items {
        slots.push(Some(item))?;
    }
    Ok(slots)
}

/// Moves the items of a group to their places, with none at all others. They leave the slots.
pub(crate) fn members_of<R: Drop>(
    alloc: Global,
    slots: &mut Vec<Option<R>>,
    owners: &[u16],
    group: u16,
) -> Result<Vec<Option<R>>, AllocError>
    requires count { length slots.old.items ≡ length owners.now }
    ensures count { IfOk result (λ members. length members.items ≡ length owners.now) }
    ensures ours { IfOk result (λ members. (p : ℕ) → p < length owners.now → is_of owners.now group p ≡ true → slice_get members.items p ≡ slice_get slots.old.items p) }
    ensures others { IfOk result (λ members. (p : ℕ) → p < length owners.now → is_of owners.now group p ≡ false → slice_get members.items p ≡ Some None) }
    ensures left { (p : ℕ) → is_of owners.now group p ≡ false → slice_get slots.new.items p ≡ slice_get slots.old.items p }
    ensures slots { length slots.new.items ≡ length slots.old.items }
{
    let mut members = Vec::with_capacity(alloc, owners.len())?;
    for process in 0..owners.len() {
        let member = take_where(&mut slots[process], owners[process] == group);
        members.push_reserved(member);
    }
    Ok(members)
}

/// Takes the item out of its slot, if it is wanted.
fn take_where<R: Drop>(slot: &mut Option<R>, wanted: bool) -> Option<R>
    ensures taken { wanted ≡ true → result ≡ slot.old }
    ensures none { wanted ≡ false → result ≡ None }
    ensures stays { wanted ≡ false → slot.new ≡ slot.old }
{
    if wanted { slot.take() } else { None }
}
