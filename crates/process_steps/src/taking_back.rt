//! Takes the newest event back: it leaves the done events, and what it sent goes out as antimessages.
ghost use Rattle.std.specs.Prelude.{◌≡◌, ◌+◌, ◌<◌, ◌≤◌, ◌-◌, [], ◌∷◌, ◌++◌, map, take, drop, reverse};
ghost use Rattle.std.specs.VecDeque.{deque_len};
ghost use Rattle.virtual_time.specs.Law.{minus_of};

use crate::event::Event;
use antimessages::Outbox;
use std::collections::VecDeque;
use vlink::{Letter, Message, Sign};

/// Removes the newest of these events, of which at least one must exist.
pub fn take_newest<K: Copy>(done: &mut VecDeque<Event<K>>) -> Event<K>
    requires { 0 < deque_len done.old }
    ensures { done.old.items ≡ done.new.items ++ result ∷ [] }
{
    done.pop_back().unwrap()
}

/// Moves the last `count` messages that were sent to the outbox as antimessages, the last first. The room for them was made before.
pub fn take_back(sends: &mut VecDeque<Message>, outbox: &mut Outbox, count: usize)
    requires enough { count ≤ deque_len sends.old }
    requires room { count ≤ outbox.old.room }
    ensures sends { sends.new.items ≡ take (deque_len sends.old - count) sends.old.items }
    ensures outbox { outbox.new.letters ≡ outbox.old.letters ++ map minus_of (reverse (drop (deque_len sends.old - count) sends.old.items)) }
    ensures room { outbox.old.room ≤ outbox.new.room + count }
{
    let all = sends.len();
    for taken in 0..count {
        let _room = outbox.push(Letter {
            message: sends[all - 1 - taken],
            sign: Sign::Minus,
        });
    }
    sends.truncate(all - count);
}
