//! The number of a held item.

/// An index into one user's table of entries, from 0.
#[derive(Clone, Copy, PartialEq, Eq)]
pub struct Slot(pub usize);
