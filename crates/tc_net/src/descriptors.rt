//! How many connections a process has descriptors for.
ghost use Rattle.std.specs.Prelude.{◌≡◌};
ghost use Rattle.tc_net.specs.Descriptors.{room_of};

/// The descriptors of the process.
#[derive(Clone, Copy, PartialEq, Eq)]
pub struct Descriptors {
    /// How many are open.
    pub open: u64,
    /// How many may be open.
    pub allowed: u64,
}

/// Descriptors that connections don't get: for a held connection, a client of the metrics, a file
/// read for the metrics, and one more.
const KEPT: u64 = 4;

/// Returns for how many connections there are descriptors beside those that are open; `u64::MAX` if
/// the system doesn't say.
pub(crate) fn room_by(descriptors: Option<Descriptors>) -> u64
    ensures { result ≡ room_of descriptors }
{
    match descriptors {
        Some(now) => now.allowed.saturating_sub(now.open).saturating_sub(KEPT),
        None => u64::MAX,
    }
}
