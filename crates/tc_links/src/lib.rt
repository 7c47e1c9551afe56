//! A worker's connection: what it reads, the requests that it does, and what it writes.
//!
//! A `Link` is a `Wire` and a `Session`. A `Talk` is a link with an invariant: it is whole since it
//! was opened (`specs/Lives.antt`).
//!
//! A turn of a worker (tc_workers) goes over its connections three times.
//!
//! - Each reads once (`Talk::take_in`). Memory for what their requests seem to ask for can then be
//!   read ahead (`ahead.rt`).
//! - Each does at most 16 requests (`do_requests`). Each command is one `Hall::call_with`. A
//!   connection with more than 131,072 bytes to send writes at once.
//! - Each writes until its wire takes no more (`give_out`). If nothing is left to do, it reads once
//!   more.
//!
//! A connection whose wire answered that nothing can be done is left out of the turns until the
//! worker's `Inlet` names it. If each user has a worker (`Homes`), the connection is passed on to
//! that worker after the turn of its login.
//!
//! # A link's states
//!
//! | A link | Its turn | Leaves that state |
//! |---|---|---|
//! | rests: no whole request is unread | reads once | when bytes come |
//! | has unread bytes | does requests, and reads nothing | once no whole request is left |
//! | is full: too much waits to be sent | only writes | once its wire took enough |
//! | waits: the reply to a refused login is held back | does nothing | by the clock |
//! | was refused memory | asks again, and declines a command that is refused twice | once it asked or declined |
//! | leaves: another worker serves it | none here | by `pass_on`, whole |
//! | is done: closed and all sent, failed, or starved | is dropped | |
//!
//! 1. A link is on its worker's list, or its inlet names its key when its wire may be read or
//!    written.
//! 2. A link and its wire belong to one worker at a time; nobody else touches them.
//! 3. A worker holds at most one lock, and none while it reads or writes a wire. It may hold one
//!    while it calls `Wire::note` or `Wire::set_user`.
//!
//! What a worker does on a connection is a list of moves (`specs/Talks.antt`). Bytes came, a
//! request was read, a command was called and answered, a command was declined for want of memory,
//! or the peer ended. Contracts see a connection as a `LinkState`. `Link::take_in`, `do_requests`
//! and `give_out` say which moves lead from one state to the next, and what is said at them. They
//! also say which calls the seat notes for these moves, and which ones the hall refused.
//!
//! `specs/Wires.antt` says what a wire may answer. A wire that knows which bytes it gave and took
//! says so; of a socket of the system, nothing is said of bytes.
//!
//! No clause says that a worker gets the connection that another passed on, that a hall refuses
//! only for want of memory, or that memory suffices.
#![tactic(auto)]

mod admitted;
mod ahead;
mod desk;
mod gate;
mod holding;
mod homes;
mod link;
mod order;
mod pace;
mod service;
mod talk;
mod wire;
mod work;

pub use admitted::Admitted;
pub use ahead::Ahead;
pub use desk::Desk;
pub use gate::{Gate, Open, Stage};
pub use holding::Holding;
pub use homes::{Homes, home_of};
pub use link::LONGEST_PIECE;
pub use pace::{Onward, Pace};
pub use service::Service;
pub use talk::Talk;
pub use tc_session::{News, Parts};
pub use wire::{Change, Got, Inlet, Patience, Put, Remark, Taken, Wire};
