//! The numbers of users.
ghost use Rattle.std.specs.Prelude.{◌≡◌, ◌≤◌, ◌<◌, ◌+◌, ◌^◌};

use std::marker::Model;

/// The number of a user: the row's position in the table, from 1.
#[derive(Clone, Copy, Debug, PartialEq, Eq)]
pub struct UserNo {
    number: u32,
}

impl Model for UserNo {
    ghost use Rattle.std.specs.Prelude.{ℕ};

    ghost Value = { ℕ };

    ghost view = { λ u. u.number };

    ghost inverse = { λ n. record { number = n } };
}

impl UserNo {
    /// Returns the user of this number. No user has the number 0.
    pub fn new(number: u32) -> UserNo
        ensures { result ≡ number }
    {
        UserNo { number }
    }

    /// Returns the number.
    pub fn number(self) -> u32
        ensures { result ≡ self }
    {
        self.number
    }
}
