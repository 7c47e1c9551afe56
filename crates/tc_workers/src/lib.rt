//! Connections in threads: workers that read, do and write in turns, a keeper, and the crew of
//! both.
//!
//! A `Worker` has a seat of the hall and its connections (tc_links). A turn goes three times over
//! those that may have something to do. First each reads once. Then memory for their requests is
//! read ahead, and each does its requests. Last each writes. The worker keeps a user's lock from
//! one call to the next (`Lease`), but reads and writes no socket under it.
//!
//! tc_fairness deals a turn out by user.
//!
//! - While several users' connections have something to do, a user who did more than its share is
//!   left out, and goes first in the next turn.
//! - A user with many items due in a new second is left out too. The worker does that work first,
//!   up to 2,048 pieces a turn.
//! - Unread bytes of half blocks are bounded by user. Beyond that bound one connection is read, and
//!   the user's others wait.
//!
//! A connection that another worker must serve is passed on after its turn.
//!
//! A `Keeper` does the deferred work of one user after another. Its thread also gets the moment
//! from a `Source`, which may look at the hall by a seat of its own. `run_crew` gives each worker a
//! thread and the keeper one, and returns all seats and the source.
//!
//! A turn is a list of visits of connections (`Turns.antt` of tc_links; `Worker::turn` `serves`),
//! each by moves of that connection. A visit drops a connection to whose bytes memory was refused.
//! Between turns (`specs/Between.antt`) connections come under keys that had none, leave, or stay
//! as they are. One that can't be passed on comes back as it was. Each connection keeps at most
//! 1,130,498 unread bytes (`Worker::unread_len` `most`).
//!
//! Two laws cover any number of turns by one table of users.
//!
//! - `staying_open`: each connection that a worker has is a `Talk`, whole since it was opened.
//! - `answering`: the calls of a connection since it was opened are in its user's book, each once
//!   and in order, whichever workers of a crew served it. The law covers the connections that a
//!   worker has after the crew's last event, and those that left a worker, as they were then. It
//!   says nothing of the last calls of a dropped connection (`specs/Crewing.antt`,
//!   `specs/Answering.antt`).
//!
//! No clause says that a worker gets the connection that another passed on, or that a hall refuses
//! only for want of memory. Nor does one say that a thread makes progress, or that memory suffices.
#![tactic(auto)]

mod accounts;
mod crew;
mod keeper;
mod laws;
mod listed;
mod seat_of;
mod start;
mod worker;

pub use crew::{CrewFault, Returned, Why, run_crew};
pub use keeper::{Keeper, Source};
pub use laws::{answering, staying_open};
pub use worker::Worker;
