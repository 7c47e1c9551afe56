//! A user's lock that a thread keeps from one call to the next.
use crate::hall_book::HallBook;
use crate::locking::lock_soon;
use crate::naming::Naming;
use std::sync::{Mutex, MutexGuard, Wait};
use tc_grammar::Command;
use tc_plain::{Cache, Plain};

/// The cost of commands, in keys, after which the holder of a kept lock releases it so that others
/// have their turn. That takes some tenths of a millisecond, or longer if one command is long.
const MOST: usize = 2_048;

/// Returns what a command costs: its number of keys, or 1.
fn cost_of(command: &Command) -> usize {
    match command {
        Command::Get { form: _, keys } => keys.len(),
        Command::Gat { keys, .. } => keys.len(),
        _ => 1,
    }
}

/// A user's lock that a thread keeps from one call to the next, or none. If the thread makes
/// several calls for a user in a row, the guarded data moves between processors once, and not with
/// each call. Contracts know what lies under it by its type alone, as under any lock.
#[derive(Drop)]
pub struct Lease<'a, C: Cache, N: Naming> {
    guard: Option<MutexGuard<'a, HallBook<C, N>>>,
    /// The number of the user whose lock it is.
    user: u32,
    /// The cost of the commands since the thread took the lock.
    done: usize,
    /// The frozen opening of a page that was turned under the lock, if the journal is on. It may be
    /// large, and others wait for the lock, so it is freed once the lock is released.
    pub(crate) left: Option<Plain>,
}

impl<'a, C: Cache, N: Naming> Lease<'a, C, N> {
    /// A lease without a lock.
    pub fn none() -> Lease<'a, C, N> {
        Lease {
            guard: None,
            user: 0,
            done: 0,
            left: None,
        }
    }

    /// Releases the lock, if there is one, and then frees what its calls left over.
    pub fn release(&mut self) {
        drop(self.guard.take());
        self.done = 0;
        self.left = None;
    }

    /// Returns this user's lock: the kept one, or the one given, once the thread has it. A kept
    /// lock of another user is released first.
    pub(crate) fn lock<R: Wait>(
        &mut self,
        rt: &R,
        user: u32,
        lock: &'a Mutex<HallBook<C, N>>,
    ) -> MutexGuard<'a, HallBook<C, N>> {
        match self.guard.take() {
            Some(guard) if self.user == user => guard,
            other => {
                drop(other);
                self.done = 0;
                lock_soon(lock, rt)
            }
        }
    }

    /// Keeps the lock of this user after no command.
    pub(crate) fn hold(&mut self, user: u32, guard: MutexGuard<'a, HallBook<C, N>>) {
        self.user = user;
        self.guard = Some(guard);
    }

    /// Keeps the lock of this user after a command. It releases the lock if the commands have cost
    /// enough, or after a page turn, so that at most one opening is left over.
    pub(crate) fn keep(
        &mut self,
        user: u32,
        guard: MutexGuard<'a, HallBook<C, N>>,
        command: &Command,
    ) {
        self.user = user;
        self.done = self.done.saturating_add(cost_of(command));
        self.guard = Some(guard);
        if self.done >= MOST || self.left.is_some() {
            self.release();
        }
    }
}
