//! A ring of look-ups that a cache answered and has yet to apply, in the order noted.
//!
//! Contracts see a `ReadBuf` as the list of its records, oldest first. A record is what a look-up
//! found, and its moment. There are at most 128. Only `new` takes memory. No clause says where the
//! records lie.
#![tactic(auto)]

mod look_up;
mod read_buf;

pub use look_up::LookUp;
pub use read_buf::{Full, PLACES, ReadBuf};
