//! When a connection has stayed too long.
ghost use Rattle.std.specs.Prelude.{◌≡◌};
ghost use Rattle.tc_connections.specs.Deadlines.{is_past, is_stalled, is_silent, silence_of, overdue};

use tc_limits::{ConnectionLimits, UserLimits};

/// Which time ran out for a connection.
#[derive(Clone, Copy, Debug, PartialEq, Eq)]
pub enum Timeout {
    /// The time to log in: `login_seconds`.
    Login,
    /// The time in which a user's connection must send a byte: `idle_seconds`.
    Idle,
    /// The time in which its peer must take a byte of what waits for it: `stalled_seconds`.
    Stalled,
}

/// The times of a connection's stay, in seconds of the server.
#[derive(Clone, Copy, PartialEq, Eq)]
pub(crate) struct Stay {
    /// When it arrived.
    pub(crate) came: u64,
    /// When bytes last came from it.
    pub(crate) heard: u64,
    /// Since when nothing of what waits for it was taken; `None` if something was.
    pub(crate) stuck: Option<u64>,
}

/// Whether more seconds than the limit went by; never without a limit.
fn is_past(limit: Option<u32>, since: u64, now: u64) -> bool
    ensures { result ≡ is_past limit since now }
{
    match limit {
        None => false,
        Some(limit) => match now.checked_sub(since) {
            None => false,
            Some(seconds) => seconds > u64::from(limit),
        },
    }
}

/// Whether nothing of what waits for it was taken for too long.
fn is_stalled(limit: Option<u32>, stuck: Option<u64>, now: u64) -> bool
    ensures { result ≡ is_stalled limit stuck now }
{
    match stuck {
        None => false,
        Some(since) => is_past(limit, since, now),
    }
}

/// Whether it has not logged in for too long; or, if its user has limits, whether it sent nothing
/// for too long.
fn is_silent(limits: ConnectionLimits, own: Option<UserLimits>, stay: Stay, now: u64) -> bool
    ensures { result ≡ is_silent limits own stay now }
{
    match own {
        None => is_past(limits.login_seconds, stay.came, now),
        Some(own) => is_past(own.idle_seconds, stay.heard, now),
    }
}

/// Returns which time runs out for a silent connection: `Idle` if its user's limits are given,
/// otherwise `Login`.
fn silence_of(own: Option<UserLimits>) -> Timeout
    ensures { result ≡ silence_of own }
{
    match own {
        None => Timeout::Login,
        Some(_) => Timeout::Idle,
    }
}

/// Returns which time ran out for a connection, under these limits and those of its user; `None` if
/// none did. Silence comes before a stall.
pub(crate) fn overdue(
    limits: ConnectionLimits,
    own: Option<UserLimits>,
    stay: Stay,
    now: u64,
) -> Option<Timeout>
    ensures { result ≡ overdue limits own stay now }
{
    if is_silent(limits, own, stay, now) {
        return Some(silence_of(own));
    }
    if is_stalled(limits.stalled_seconds, stay.stuck, now) {
        return Some(Timeout::Stalled);
    }
    None
}
