//! Locks that are soon free.
use crate::{PAUSES_OF_TRY, TRIES};
use std::hint;
use std::sync::{Mutex, MutexGuard, Wait};

/// Locks a value that others hold for some microseconds at most. A thread that slept would lose more, so it tries for a while.
pub fn locked_soon<'b, V, T: Wait>(rt: &T, lock: &'b Mutex<V>) -> MutexGuard<'b, V> {
    for _ in 0..TRIES {
        if let Some(guard) = lock.try_lock() {
            return guard;
        }
        for _ in 0..PAUSES_OF_TRY {
            hint::spin_loop();
        }
    }
    lock.lock(rt)
}
