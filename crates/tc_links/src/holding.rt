//! What a worker's accounts know of a connection.

use tc_fairness::{Backlog, Part};

/// Whose account a connection is on, and how many of its bytes are kept.
#[derive(Clone, Copy)]
pub struct Holding {
    /// Its user's number; 0 before its login.
    pub user: usize,
    /// How many of its bytes are unread.
    pub unread: usize,
    /// How many bytes wait to be sent to it.
    pub unsent: usize,
}

impl Holding {
    /// Returns its part of what waits to be sent to its user.
    pub fn backlog(&self) -> Backlog {
        Backlog {
            user: self.user,
            bytes: self.unsent,
        }
    }

    /// Returns its part of its user's unread bytes, under its key.
    pub fn part(&self, key: usize) -> Part {
        Part {
            user: self.user,
            key,
            bytes: self.unread,
        }
    }
}
