//! What a worker reads and writes, and where it gets its connections.
ghost use Rattle.std.specs.Prelude.{◌≡◌, ℕ, List, Option, IfErr, length};
ghost use Rattle.tc_links.specs.Wires.{ReadsWithin, WritesWithin, Gives, Takes};

use std::sync::Wait;
use tc_session::{News, Parts};
use tc_users::UserNo;

/// The result of a read.
#[derive(Clone, Copy, PartialEq, Eq)]
pub enum Got {
    /// This many bytes are at the front of the buffer. Read again after 0.
    Bytes(usize),
    /// The peer sends no more.
    Ended,
    /// Nothing is there yet.
    Later,
    Failed,
}

/// The result of a write.
#[derive(Clone, Copy, PartialEq, Eq)]
pub enum Put {
    /// The wire took this many of the first bytes. Write again after 0.
    Wrote(usize),
    /// The wire takes nothing yet.
    Later,
    Failed,
}

/// What an operator may want to know of a connection.
#[derive(Clone, Copy, PartialEq, Eq)]
pub enum Remark {
    /// An event of its session.
    News(News),
    /// Its client speaks the binary protocol, so it is closed.
    IsBinary,
    /// It sent half a block and stopped, while others of its user waited, so it must close.
    HoldsUp,
}

/// Both directions of a connection. No call waits for the peer: `read` and `write` return `Later`
/// instead of blocking. `note` may spin for a moment while another thread uses the queue of
/// notices.
pub trait Wire {
    /// All bytes that it gave; `None` for one that doesn't know them, such as a socket.
    ghost gave: { Self → Option (List ℕ) };

    /// All bytes that it took; `None` for one that doesn't know them, such as a socket.
    ghost took: { Self → Option (List ℕ) };

    /// Reads the next bytes into the front of `into`, as many as there are and fit.
    fn read(&mut self, into: &mut [u8]) -> Got
        ensures within { ReadsWithin result (length into.old) }
        ensures gives { Gives result (gave self.old) (gave self.new) into.new }
        ensures takes_nothing { took self.new ≡ took self.old };

    /// Writes the first bytes of `from`, as many as it can.
    fn write(&mut self, from: &Parts<'_>) -> Put
        ensures within { WritesWithin result (length from.now) }
        ensures takes { Takes result (took self.old) (took self.new) from.now }
        ensures gives_nothing { gave self.new ≡ gave self.old };

    /// Sets the key under which its worker has it. Returns whether the inlet names that key each
    /// time a read or a write would stop answering `Later`. If not, the worker tries the wire each
    /// turn.
    fn set_key(&mut self, key: usize) -> bool
        ensures gives_nothing { gave self.new ≡ gave self.old }
        ensures takes_nothing { took self.new ≡ took self.old };

    /// Sets whose connection it is. The worker calls it once.
    fn set_user(&mut self, user: UserNo)
        ensures gives_nothing { gave self.new ≡ gave self.old }
        ensures takes_nothing { took self.new ≡ took self.old };

    /// Takes a remark for the operator. A connection that holds others up (`Remark::HoldsUp`) ends
    /// soon.
    fn note<R: Wait>(&mut self, rt: &R, remark: Remark)
        ensures gives_nothing { gave self.new ≡ gave self.old }
        ensures takes_nothing { took self.new ≡ took self.old };
}

/// What an inlet does to a wire that it passes on or takes over. It reads and writes nothing.
pub trait Change<W: Wire> {
    /// Makes the change, and returns whether it could.
    fn change(self, wire: &mut W) -> bool
        ensures gives_nothing { W.gave wire.new ≡ W.gave wire.old }
        ensures takes_nothing { W.took wire.new ≡ W.took wire.old };
}

/// What an inlet yields, over wires W and connections L.
#[derive(Drop)]
pub enum Taken<W, L> {
    /// A new connection, and its number.
    Given(u32, W),
    /// A connection that another worker passed on.
    Passed(L),
    Nothing,
    /// No more connections come.
    Ended,
}

/// How long an inlet may wait for something new.
#[derive(Clone, Copy, PartialEq, Eq)]
pub enum Patience {
    /// Not at all: a connection has more to do.
    Hurried,
    /// A moment: a connection must be tried again.
    Brief,
    /// Until something new is there.
    Long,
}

/// Where a worker gets its connections L, each over a wire W, and learns which of them have
/// something to do.
pub trait Inlet<W, L>: Drop {
    /// Returns the next connection, and waits no longer than `patience` allows. The worker calls it
    /// before each turn until it returns none, 64 times at most.
    fn take(&mut self, patience: Patience) -> Taken<W, L>;

    /// Returns the key of a wire that may be read or written again, each key once; `None` if none
    /// is left.
    fn woken(&mut self) -> Option<usize>;

    /// Passes a connection on to the worker `to`, counted from 0, whose inlet then yields it. If
    /// that fails, the connection comes back.
    fn pass_on(&mut self, to: usize, link: L) -> Result<(), L>
        ensures back { IfErr result (λ back. back ≡ link) };
}
