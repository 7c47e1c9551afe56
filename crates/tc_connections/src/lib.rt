//! The state of a server's connections that its listener, its wires, its inlets and its keeper
//! share. No socket, poll or thread is here.
//!
//! Each connection has a place among the `Connections`. They know its user and its peer, count it
//! by user (`tallies.rt`), and mark a connection to go for one of four reasons:
//!
//! - it is the oldest one without a login, and too many have none,
//! - its user has too many,
//! - it stayed too long (`specs/Deadlines.antt`),
//! - it holds up others of its user.
//!
//! A `Notice` tells the operator of it, with the address in one spelling (`canonical`). At most ten
//! a second get a line, shared out by user and cause (`lines.rt`). A `Readiness` has a word for
//! each socket of one worker's poll, and what the worker did (`Counts`).
//!
//! 1. The listener fills a place among the `Connections`. The wire that has it writes it and frees
//!    it; without a wire, whoever drops the connection frees it. The listener, the keeper or a wire
//!    marks it to go.
//! 2. Only the worker's thread writes a place of its `Readiness`.
//! 3. Only one worker writes each `Counts`.
//!
//! There are contracts for `overdue`, which says which time ran out for a connection, and for
//! `canonical`. Threads share the rest by words that each change in one atomic step, and no clause
//! covers those.
#![tactic(auto)]

mod address;
mod atomic_addr;
mod connections;
mod counts;
mod lines;
mod notice;
mod overdue;
mod readiness;
mod tallies;

pub use address::canonical;
pub use connections::Connections;
pub use counts::Counts;
pub use notice::{Cause, Notice};
pub use overdue::Timeout;
pub use readiness::{ENDING, READABLE, Readiness, WRITABLE};
