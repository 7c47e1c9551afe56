//! How many connections each user has.
use std::alloc::{AllocError, Global};
use std::sync::atomic::AtomicU64;
use std::sync::atomic::Ordering::SeqCst;
use tc_limits::LimitsByUser;
use tc_users::UserNo;

/// The count of one user's connections.
#[derive(Drop)]
struct Tally {
    /// How many are open and not marked to go.
    open: AtomicU64,
}

/// The count of each user that has limits, in the order of the users' numbers. Callers name a user
/// by its number; 0 is nobody.
#[derive(Drop)]
pub(crate) struct Tallies {
    rows: Vec<Tally>,
}

impl Tallies {
    /// Makes the counts of users without connections.
    pub(crate) fn new(alloc: Global, user_limits: &LimitsByUser) -> Result<Tallies, AllocError> {
        let mut rows = Vec::new(alloc);
        for number in 1..=u32::MAX {
            if user_limits.of(UserNo::new(number)).is_none() {
                break;
            }
            rows.push(Tally {
                open: AtomicU64::new(0),
            })?;
        }
        Ok(Tallies { rows })
    }

    /// Returns how many users there are.
    pub(crate) fn len(&self) -> usize {
        self.rows.len()
    }

    fn of(&self, user: u64) -> Option<&Tally> {
        self.rows.get(user.checked_sub(1)? as usize)
    }

    /// Counts a connection, and returns how many others the user has. It is one atomic step, so
    /// that of two connections at once one is the first.
    pub(crate) fn count_in(&self, user: u64) -> u64 {
        match self.of(user) {
            Some(tally) => tally.open.fetch_add(1, SeqCst),
            None => 0,
        }
    }

    /// Removes a connection from the count.
    pub(crate) fn count_out(&self, user: u64) {
        if let Some(tally) = self.of(user) {
            tally.open.fetch_sub(1, SeqCst);
        }
    }
}
