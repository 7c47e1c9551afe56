//! The steps of a server.

use tc_item::Moment;

/// The number of a connection, chosen by the caller.
pub type ConnectionNo = u32;

/// An event of a connection.
#[derive(Clone, Copy)]
pub enum Happening<'a> {
    /// It opens.
    Open,
    /// These bytes arrive on it.
    Piece(&'a [u8]),
    /// It does its next request, if a whole one is there.
    Act,
    /// It closes.
    Shut,
}

/// A step of the server. Callers number connections; users count from 1. A step on a connection
/// that is not open does nothing, unless it opens one that never was. Opening a connection again
/// does nothing, and neither does a step on an unknown user.
#[derive(Clone, Copy)]
pub enum Step<'a> {
    /// An event of a connection.
    On(ConnectionNo, Happening<'a>),
    /// The clock advances to this moment; it never goes back.
    Tick(Moment),
    /// A user's cache does deferred work, at most this many pieces of it: user, limit.
    Maintain(u32, u32),
}
