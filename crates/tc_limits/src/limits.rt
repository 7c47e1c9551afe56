//! Limits on connections.
ghost use Rattle.std.specs.Prelude.{◌≡◌};
ghost use Rattle.tc_model.specs.Connection.{user_at};

use std::marker::Model;
use tc_users::UserNo;

/// The limits on all connections. `None` means no limit.
#[derive(Clone, Copy, PartialEq, Eq)]
pub struct ConnectionLimits {
    /// The server closes a connection that goes without a login for more than this many seconds.
    pub login_seconds: Option<u32>,
    /// The server closes a connection whose peer takes none of its waiting output for more than
    /// this many seconds.
    pub stalled_seconds: Option<u32>,
    /// At most this many connections may be open without a login. For one more, the server closes
    /// the oldest of them.
    pub unbound_connections: Option<u32>,
}

/// The limits on one user's connections. `None` means no limit.
#[derive(Clone, Copy, PartialEq, Eq)]
pub struct UserLimits {
    /// At most this many connections of the user may be open.
    pub connections: Option<u32>,
    /// The server closes a connection of the user that sends no byte for more than this many
    /// seconds.
    pub idle_seconds: Option<u32>,
}

/// Each user's limits, in the order of the users' numbers.
#[derive(Drop)]
pub struct LimitsByUser {
    rows: Vec<UserLimits>,
}

impl Model for LimitsByUser {
    ghost use Rattle.std.specs.Prelude.{List};
    ghost use Rattle.tc_limits.specs.declared.limits.UserLimits.{UserLimits};

    ghost Value = { List UserLimits };

    ghost view = { λ l. l.rows.items };
}

impl LimitsByUser {
    /// Takes over the limits of all users, in the order of their numbers.
    pub fn new(rows: Vec<UserLimits>) -> LimitsByUser
        ensures { result ≡ rows.items }
    {
        LimitsByUser { rows }
    }

    /// Returns the limits of a user; `None` if no user has that number.
    pub fn of(&self, user: UserNo) -> Option<UserLimits>
        ensures { result ≡ user_at self.now user }
    {
        let place = user.number().checked_sub(1)?;
        self.rows.get(place as usize).copied()
    }
}
