//! Who learns how a server fares, and knows what the system says of its process.
use crate::descriptors::Descriptors;
use std::io;
use std::net::SocketAddr;
use tc_connections::Notice;
use tc_locked::Audit;
use tc_users::UserNo;

/// Receives a server's reports. Each method does nothing by default. `notes`, `version`,
/// `resident`, `cpu_millis` and `descriptors` run on the keeper's thread, which waits for them. The
/// thread that calls `serve` also calls `descriptors`, once.
pub trait Audience {
    /// The server listens on this address.
    fn listens(&self, _address: SocketAddr) {}

    /// The server can't listen, for this reason.
    fn cannot_listen(&self, _why: &io::Error) {}

    /// The server serves the metrics on this address.
    fn tells_metrics(&self, _address: SocketAddr) {}

    /// The server can't listen for the metrics, for this reason.
    fn cannot_tell_metrics(&self, _why: &io::Error) {}

    /// Something happened to a connection, or to several. It gets at most ten notices a second,
    /// shared out by user and cause.
    fn notes(&self, _notice: &Notice) {}

    /// Returns the release that runs, for the metrics.
    fn version(&self) -> &'static str {
        ""
    }

    /// Returns how many bytes of memory are resident, for the metrics; 0 if unknown.
    fn resident(&self) -> u64 {
        0
    }

    /// Returns the process's processor time in milliseconds, for the metrics; 0 if unknown.
    fn cpu_millis(&self) -> u64 {
        0
    }

    /// Returns how many descriptors the process has open and may have; `None` if unknown.
    fn descriptors(&self) -> Option<Descriptors> {
        None
    }

    /// The server has ended, and this is the result of repeating the calls of the user's last page.
    fn audited(&self, _user: UserNo, _audit: &Audit) {}

    /// The server has ended, and no audit was possible: seats of its hall are missing, or its
    /// journal was off.
    fn not_audited(&self) {}
}
