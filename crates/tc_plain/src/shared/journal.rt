//! Whether commands and outcomes are kept.

/// Whether a cache keeps each command and its outcome, so that an audit can replay them.
#[derive(Clone, Copy, PartialEq, Eq)]
pub enum Journal {
    On,
    Off,
}
