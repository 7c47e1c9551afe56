//! What a server begins with.
ghost use Rattle.std.specs.Prelude.{◌≡◌, ◌<◌, map};
ghost use Rattle.tc_fresh.specs.Beginning.{fresh_cache};

use tc_limits::{Address, ConnectionLimits, LimitsByUser};
use tc_locked::Opened;
use tc_plain::Cache;
use tc_users::Users;

/// The settings of a server, wherever they were read.
#[derive(Drop)]
pub struct ServerSettings {
    /// Where it listens, as an address and a port.
    pub listen: Address,
    /// The number of threads that serve connections.
    pub workers: usize,
    /// The number of entries on a page of the journal.
    pub journal: usize,
    /// The limits on all connections.
    pub limits: ConnectionLimits,
    /// Where it serves the metrics; `None` for nowhere.
    pub metrics: Option<Address>,
    /// Who may log in.
    pub users: Users,
    /// The limits on each user's connections.
    pub user_limits: LimitsByUser,
}

/// A server's settings, a table for its hall, and a fresh cache for each user, in the order of the
/// users' numbers.
#[derive(Drop)]
pub struct Beginning<C: Cache> {
    pub settings: ServerSettings,
    pub opened: Opened,
    pub caches: Vec<C>,
    ghost fresh: { map C.settled caches.items ≡ map fresh_cache settings.users },
    ghost workers: { 0 < settings.workers },
    ghost journal: { 0 < settings.journal },
}
