//! The progress of deferred work.

/// Whether deferred work stopped at its limit.
#[derive(Clone, Copy, PartialEq, Eq)]
pub enum Progress {
    /// It did not: nothing is left to do.
    Done,
    /// It did: more may be left.
    MoreLeft,
}
