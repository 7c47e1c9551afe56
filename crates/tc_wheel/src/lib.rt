//! The expiry wheel: held slots by the second in which they are due.
//!
//! Contracts see a `Wheel` as a moment and, for each slot that has room, its due or none. The
//! contracts are the equations of `specs/Dues.antt`. Only `new` and `reserve` take memory.
//!
//! `add` and `remove` take constant time. `advance` walks the buckets of the seconds that passed,
//! the oldest first, each once and at most 4,096. It stops once a bucket held something due, and
//! the next call continues there. No clause says which due slot comes first, or how the slots are
//! stored.
#![tactic(auto)]

mod nodes;
mod slot_due;
mod sweep;
mod wheel;

pub use tc_item::Slot;
pub use wheel::Wheel;
