//! What each area may weigh.
ghost use Rattle.std.specs.Prelude.{◌≡◌, ◌≤◌};
ghost use Rattle.tc_item.specs.Bounds.{largest_budget};
ghost use Rattle.tc_plain.specs.EvictionState.{limits_of};

use std::marker::Model;

/// The most that the window, main and protected may weigh, in bytes. Protected is a part of main.
#[derive(Clone, Copy, PartialEq, Eq)]
pub struct Limits {
    pub window: u64,
    pub main: u64,
    pub protected: u64,
}

impl Model for Limits {
    ghost use Rattle.tc_model.specs.Areas.{Limits};

    ghost Value = { Limits };

    ghost view = { λ l. record { window = l.window; main = l.main; protected = l.protected } };

    ghost inverse = { λ l. record { window = l.window; main = l.main; protected = l.protected } };
}

impl Limits {
    /// Returns the limits of a budget in bytes: a hundredth for the window, the rest for main, and
    /// four fifths of main for protected.
    pub fn of(budget: u64) -> Limits
        requires { budget ≤ largest_budget }
        ensures { result ≡ limits_of budget }
    {
        let window = budget / 100;
        let main = budget - window;
        Limits {
            window,
            main,
            protected: main * 4 / 5,
        }
    }

    /// Returns the most that main may weigh.
    pub(crate) fn main_limit(&self) -> u64
        ensures { result ≡ self.now.main }
    {
        self.main
    }

    /// Returns the most that protected may weigh.
    pub(crate) fn protected_limit(&self) -> u64
        ensures { result ≡ self.now.protected }
    {
        self.protected
    }
}
