//! The outcome of a command, and a user's counters.
//!
//! Contracts see an `Outcome` as plain data, `Hits` as the list of its hits, and `Statistics` as
//! its counters. `Counters::note` raises what `specs/UserCounters.antt` defines, and
//! `Counters::render` writes the rows of `specs/StatsRows.antt`. Each copy equals its original;
//! copying fails only for lack of memory, and changes nothing.
#![tactic(auto)]

mod counters;
mod hits;
mod noting;
mod outcome;
mod rows;

pub use counters::{Counters, Statistics};
pub use hits::{Hit, Hits};
pub use outcome::Outcome;
pub use rows::{MOST_BYTES, VERSION};
