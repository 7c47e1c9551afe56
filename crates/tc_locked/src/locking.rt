//! How a thread takes a user's lock.
use std::hint::spin_loop;
use std::sync::{Mutex, MutexGuard, Wait};

/// How often a thread tries a lock before it blocks. The tries take some microseconds, in which a
/// call or two end.
const TRIES: u32 = 200;

/// Tries the lock up to `TRIES` times.
fn try_often<T>(lock: &Mutex<T>) -> Option<MutexGuard<'_, T>> {
    for _ in 0..TRIES {
        if let Some(guard) = lock.try_lock() {
            return Some(guard);
        }
        spin_loop();
    }
    None
}

/// Takes the lock. A call holds it for a microsecond or two, so the thread spins for a while before
/// it blocks. A holder that releases a lock to a blocked thread has to wake it, which costs both
/// more than a call.
pub(crate) fn lock_soon<'a, T, R: Wait>(lock: &'a Mutex<T>, rt: &R) -> MutexGuard<'a, T> {
    match try_often(lock) {
        Some(guard) => guard,
        None => lock.lock(rt),
    }
}
