//! Items in the order in which they came, of which the oldest leave.
ghost use Rattle.std.specs.Prelude.{◌≡◌, ◌↔◌, ◌+◌, ◌-◌, ◌<◌, ◌≤◌, [], ◌∷◌, ◌++◌, drop, length, option_to_list, slice_index_or, take, IfSome, IsSome, OnOk};

use std::alloc::{AllocError, Global};
use std::marker::Model;

/// Items that come at the end, and leave at the end, or the oldest at the front. Those that left at the front stay in memory until the gap
/// is closed, which waits until they are as many as the others. So each item is moved at most once for one that left, and each lies at its
/// place in one block.
///
/// Clauses see the items, and the room for more.
#[derive(Drop)]
pub(crate) struct Trail<T: Copy> {
    all: Vec<T>,
    /// How many of them have left at the front.
    left: usize,
}

impl<T: Copy> Model for Trail<T> {
    ghost use Rattle.std.specs.Prelude.{◌-◌, ◌≤◌, drop, vec_len, vec_capacity};
    ghost use Rattle.group_queues.specs.Trail.{Items};

    ghost Value = { Items T };

    ghost view = { λ l. record { items = drop l.left l.all.items; room = vec_capacity l.all - vec_len l.all } };

    ghost invariant = { λ l. l.left ≤ vec_len l.all };
}

impl<T: Copy + Drop> Trail<T> {
    /// Makes a list without items.
    pub(crate) fn new(alloc: Global) -> Self
        ensures { result.items ≡ [] }
    {
        Trail {
            all: Vec::new(alloc),
            left: 0,
        }
    }

    /// Returns the number of items.
    #[inline(always)]
    pub(crate) fn len(&self) -> usize
        ensures { result ≡ length self.now.items }
    {
        self.all.len() - self.left
    }

    /// Makes room for `more` items.
    pub(crate) fn reserve(&mut self, more: usize) -> Result<(), AllocError>
        ensures room { OnOk result (more ≤ self.new.room) }
        ensures items { self.new.items ≡ self.old.items }
    {
        self.all.reserve(more)
    }

    /// Adds one item. The room for it was made before.
    #[inline(always)]
    pub(crate) fn push_back_reserved(&mut self, item: T)
        requires { 0 < self.old.room }
        ensures items { self.new.items ≡ self.old.items ++ item ∷ [] }
        ensures room { self.new.room + 1 ≡ self.old.room }
    {
        self.all.push_reserved(item);
    }

    /// Returns the item at this place.
    #[inline(always)]
    pub(crate) fn item(&self, place: usize) -> &T
        requires { place < length self.now.items }
        ensures { result.now ≡ slice_index_or self.now.items place result.now }
    {
        &self.all[self.left + place]
    }

    /// Returns the items, the oldest first.
    #[inline(always)]
    pub(crate) fn as_slice(&self) -> &[T]
        ensures { result.now ≡ self.now.items }
    {
        &self.all[self.left..]
    }

    /// Returns the oldest item, if any.
    pub(crate) fn front(&self) -> Option<&T>
        ensures variant { IsSome result ↔ (0 < length self.now.items) }
        ensures lookup { IfSome result (λ x. x.now ≡ slice_index_or self.now.items 0 x.now) }
    {
        if self.len() == 0 {
            return None;
        }
        Some(self.item(0))
    }

    /// Returns the newest item, if any.
    #[inline(always)]
    pub(crate) fn back(&self) -> Option<&T>
        ensures variant { IsSome result ↔ (0 < length self.now.items) }
        ensures lookup { IfSome result (λ x. x.now ≡ slice_index_or self.now.items (length self.now.items - 1) x.now) }
    {
        let len = self.len();
        if len == 0 {
            return None;
        }
        Some(self.item(len - 1))
    }

    /// Removes and returns the newest item, if any.
    pub(crate) fn pop_back(&mut self) -> Option<T>
        ensures items { self.old.items ≡ self.new.items ++ option_to_list result }
        ensures variant { IsSome result ↔ (0 < length self.old.items) }
        ensures room { self.new.room ≡ self.old.room + length (option_to_list result) }
    {
        if self.len() == 0 {
            return None;
        }
        self.all.pop()
    }

    /// Removes the newest items, so that `len` stay.
    pub(crate) fn truncate(&mut self, len: usize)
        requires { len ≤ length self.old.items }
        ensures items { self.new.items ≡ take len self.old.items }
        ensures room { self.new.room + len ≡ self.old.room + length self.old.items }
    {
        self.all.truncate(self.left + len);
    }

    /// Removes the oldest `count` items.
    #[inline(always)]
    pub(crate) fn forget(&mut self, count: usize)
        requires { count ≤ length self.old.items }
        ensures items { self.new.items ≡ drop count self.old.items }
        ensures room { self.new.room ≡ self.old.room }
    {
        self.left += count;
    }

    /// Moves the items to the front, if they are no more than those that have left there.
    pub(crate) fn close_up(&mut self)
        ensures items { self.new.items ≡ self.old.items }
        ensures room { self.old.room ≤ self.new.room }
    {
        let len = self.len();
        if len <= self.left {
            self.all.copy_within(self.left.., 0);
            self.all.truncate(len);
            self.left = 0;
        }
    }
}
