//! A server on sockets: the listener, the workers' wires and inlets, the keeper's clock, the
//! metrics, and `serve`, which runs them all.
//!
//! - `Listening` accepts connections on its own thread and hands each to a worker over a channel.
//! - `EventLoop` is a worker's inlet: its poll, its end of the channel, and the keys of the sockets
//!   that the poll reported.
//! - `Socket` is a wire. It calls the system only if the poll reported the socket. What the poll
//!   reported is in the worker's `Readiness` (tc_connections).
//! - `Ticking` is what the keeper's thread does between the keeper's turns. It reads the clock,
//!   marks overdue connections each second, and answers scrapers (`Scraping`) with one `stats` call
//!   per user, by a seat of its own.
//! - `Counting` runs there too. Each worker counts its work (`Counts`), and `Counting` derives the
//!   `Shares` from it.
//!
//! Workers pass connections on over the same channels: to the worker of the connection's user, or
//! to one that helps it.
//!
//! A `Socket` reads and writes a `Stream`, by default the system's `TcpStream`, about whose bytes
//! no clause says anything. Over a stream that knows its bytes, the socket gives what the stream
//! gave, and the stream takes what the socket was handed. `unpolled` makes a socket that no poll
//! watches.
//!
//! Each connection has a place among the `Connections` (tc_connections), where it can be marked to
//! go. From then on its wire fails, and its worker drops it.
//!
//! # Who waits, who wakes, who writes
//!
//! ```text
//! listener: poll ----- Arrival::New ----> channel of worker w, and its waker
//! worker a: Worker::pass_on - Arrival::Passed -> channel of worker w, and its waker
//! worker w: poll <- its sockets, its waker     keeper: nap of 10 ms
//! ```
//!
//! 1. A running thread blocks in its poll (listener, worker), in a nap of 10 ms (keeper), or for a
//!    user's lock (worker, keeper). The keeper's thread also blocks in its `Audience`, which may
//!    write a log or read a file. Before that, workers and keeper wait until all their threads have
//!    started.
//! 2. A full or empty channel blocks nobody, and nor does the queue of notices. A call of either
//!    spins or yields while another thread is in the middle of its own call. A worker may push a
//!    notice under a user's lock. The journal is memory, so an entry waits for no device.
//! 3. Whoever sends a connection into a worker's channel then wakes that worker. A full channel
//!    refuses it. The listener closes a refused connection; a worker takes its own back.
//! 4. A socket is registered with one poll, that of the worker which has its link, and has one
//!    place in that worker's `Readiness`. Only the worker's thread writes there: its poll's events
//!    set bits, and its wires clear them by the system's answers.
//! 5. The listener fills a place among the `Connections`. The wire that has it writes it and frees
//!    it; without a wire, the listener or the inlet frees it. The listener, the keeper or a wire
//!    marks it to go. Only the listener wakes the workers for that. The keeper and a wire just
//!    count the mark, and a resting worker reads that count within 1 s.
//! 6. `Counts` are written by one worker and read by the keeper; `Shares` are written by the keeper
//!    and read by the workers.
//!
//! `serve` works over any cache. A `Beginning` holds what `Hall::new` needs. An `Audience` learns
//! where the server listens, and what the audit of the hall finds at the end.
//!
//! No clause says what the system's stream, a poll or a channel does, that a thread makes progress,
//! or that memory suffices.
#![tactic(auto)]

mod at_end;
mod audience;
mod auditing;
mod beginning;
mod clocking;
mod counting;
mod descriptors;
mod event_loop;
mod handover;
mod listening;
mod peer;
mod remarks;
mod rouser;
mod scraping;
mod serving;
mod socket;
mod stream;

pub use at_end::AtEnd;
pub use audience::Audience;
pub use auditing::Found;
pub use beginning::{Beginning, ServerSettings};
pub use descriptors::Descriptors;
pub use rouser::{Rouser, unpolled};
pub use serving::{Affinity, Unserved, serve};
pub use socket::Socket;
pub use stream::Stream;
pub use tc_connections::{Cause, Notice, Timeout};
