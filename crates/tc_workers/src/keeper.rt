//! The keeper: deferred work of one user after another.
ghost use Rattle.std.specs.Prelude.{◌≡◌, ◌<◌};
ghost use Rattle.tc_links.specs.Turns.{user_after};

use std::marker::Model;
use std::sync::Wait;
use tc_item::Moment;
use tc_locked::{Clock, Hall, Naming};
use tc_plain::Cache;
use tc_users::UserNo;

/// The most pieces of deferred work in a turn.
const LIMIT: u32 = 64;

/// Goes round the users. Contracts see the number of the last turn's user, 0 before the first turn.
#[derive(Drop)]
pub struct Keeper {
    done: u32,
}

impl Model for Keeper {
    ghost use Rattle.std.specs.Prelude.{ℕ};

    ghost Value = { ℕ };

    ghost view = { λ k. k.done };
}

impl Keeper {
    /// Makes a keeper before the first user.
    pub fn new() -> Keeper
        ensures { result ≡ 0 }
    {
        Keeper { done: 0 }
    }

    /// Maintains the next user's cache at the clock's moment; does nothing if there is no user.
    pub fn turn<R: Wait, C: Cache, N: Naming>(&mut self, rt: &R, hall: &Hall<C, N>, clock: &Clock)
        ensures next { 0 < hall.now → self.new ≡ user_after hall.now self.old }
        ensures nobody { hall.now ≡ 0 → self.new ≡ self.old }
    {
        if hall.users() == 0 {
            return;
        }
        if self.done < hall.users() {
            self.done += 1;
        } else {
            self.done = 1;
        }
        hall.maintain(rt, UserNo::new(self.done), clock.now(), LIMIT);
    }
}

/// What the keeper's thread does beside the keeper's turns.
pub trait Source<C: Cache, N: Naming>: Drop {
    /// Sleeps, so that the keeper doesn't spin, and returns the moment.
    fn moment(&mut self) -> Moment;

    /// Does what else is due before the keeper's turn, such as a call of the hall by a seat of its
    /// own. It may wait for a user's lock; the keeper's turns wait meanwhile.
    fn attend<R: Wait>(&mut self, rt: &R, hall: &Hall<C, N>, clock: &Clock);
}
