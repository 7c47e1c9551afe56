//! The result of a look-up, as the ring keeps it.

use tc_item::Slot;

/// The result of a look-up, which the cache counts for eviction later.
#[derive(Clone, Copy, PartialEq, Eq)]
pub enum LookUp {
    /// The item in this slot, whose key has this hash (`tc_item::hash`).
    Hit(Slot, u64),
    /// No item, under a key of this hash.
    Miss(u64),
}
