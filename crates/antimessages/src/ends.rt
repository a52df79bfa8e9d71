//! A deque that items mostly enter at the back, and mostly leave at the front.
ghost use Rattle.std.specs.Prelude.{◌≡◌, ◌+◌, ◌<◌, remove, slice_get};
ghost use Rattle.std.specs.VecDeque.{deque_len, deque_capacity};

use std::collections::VecDeque;
use std::mem::replace;

/// Removes and returns the item at this place, or returns none if the place is empty. It moves the shorter side, and nothing if the item is
/// the first. If the item was the last one left, the deque begins at its front again.
#[inline(always)]
pub(crate) fn take_at<T: Drop>(items: &mut VecDeque<T>, place: usize) -> Option<T>
    ensures value { result ≡ slice_get items.old.items place }
    ensures items { items.new.items ≡ remove items.old.items place }
    ensures len { place < deque_len items.old → deque_len items.new + 1 ≡ deque_len items.old }
    ensures capacity { deque_capacity items.new ≡ deque_capacity items.old }
{
    let item = if place == 0 {
        items.pop_front()
    } else {
        items.remove(place)
    };
    rewind(items);
    item
}

/// Lets an empty deque begin at the front of its room again. So the same few places are used again and again, and stay in the caches. No
/// item moves, and no memory is taken.
pub fn rewind<T: Drop>(items: &mut VecDeque<T>)
    ensures items { items.new.items ≡ items.old.items }
    ensures len { deque_len items.new ≡ deque_len items.old }
    ensures capacity { deque_capacity items.new ≡ deque_capacity items.old }
{
    if items.is_empty() {
        let alloc = *items.allocator();
        let empty = replace(items, VecDeque::new(alloc));
        *items = VecDeque::from_vec(empty.into_vec());
    }
}
