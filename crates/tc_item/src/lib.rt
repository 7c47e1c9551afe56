//! Keys, items and moments: what one user's cache holds, and until when.
//!
//! Contracts see a `Key` as its 1 to 250 bytes (`specs/KeyRule.antt`), a `Few` and so `Keys` as the
//! list of its items, and a `Blob` as its bytes. They see a `Moment` as its seconds, below 2^40,
//! and a `KeptDue` as the `Due` that it keeps. A `Slot` is a bare number.
//!
//! `exptime::due` and `alive` return what `specs/Expiry.antt` defines, and `weight` what
//! `specs/Weight.antt` defines. `NoMemory` is the one error of a refused allocation. A copy by
//! `TryCopy` equals its original. No clause mentions capacity or where a key's bytes lie.
#![tactic(auto)]

mod blob;
mod bounds;
pub mod exptime;
mod few;
mod fnv;
mod item;
mod kept_due;
mod key;
mod key_bytes;
pub mod moment;
mod no_memory;
mod place;
mod prefetching;
mod slot;

pub use blob::Blob;
pub use bounds::{
    LARGEST_BUDGET, LARGEST_ITEM, LONGEST_KEY, LONGEST_OFFSET, MOMENT_LIMIT, RECORD_WEIGHT,
    SMALLEST_BUDGET,
};
pub use few::{Few, TryCopy};
pub use fnv::hash;
pub use item::{Item, alive, weight};
pub use kept_due::KeptDue;
pub use key::{Key, KeyFault, Keys, is_key};
pub use key_bytes::key_run;
pub use moment::{Due, Moment};
pub use no_memory::NoMemory;
pub use prefetching::have_read;
pub use slot::Slot;
