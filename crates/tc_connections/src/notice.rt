//! What an operator learns while a server serves.
use crate::overdue::Timeout;
use std::net::SocketAddr;
use tc_users::UserNo;

/// What happened to a connection, in a line of its own; or to several, in one line.
#[derive(Clone, Copy, PartialEq, Eq)]
pub enum Notice {
    /// All places are taken, so a connection from this peer was closed at once.
    NoPlace {
        peer: SocketAddr,
    },
    /// The process has no descriptor for another connection beside the `open` ones: it waits until
    /// one closes.
    NoDescriptor {
        open: u64,
    },
    /// As many connections have no login as the limit allows, so the oldest of them goes for one
    /// from this peer.
    UnboundFull {
        peer: SocketAddr,
    },
    /// A login was refused. `user` is the user whose name it gave; `None` if the name is nobody's.
    LoginRefused {
        peer: SocketAddr,
        user: Option<UserNo>,
    },
    /// A connection that has not logged in sent a block longer than a login's may be.
    LongBlock {
        peer: SocketAddr,
    },
    /// A connection spoke the binary protocol, and was closed.
    Binary {
        peer: SocketAddr,
    },
    /// A connection sent half a block and stopped, while others of its user waited, and must go.
    HoldsUp {
        peer: SocketAddr,
        user: Option<UserNo>,
    },
    /// A connection's time ran out, and it must go. `user` is `None` before its login.
    TimedOut {
        peer: SocketAddr,
        user: Option<UserNo>,
        timeout: Timeout,
    },
    /// Memory was refused to a command of a connection, or to its reply.
    NoMemory {
        peer: SocketAddr,
        user: Option<UserNo>,
    },
    /// `count` notices of this cause have no line of their own. `user` is `None` for those of no
    /// user.
    LeftOut {
        user: Option<UserNo>,
        cause: Cause,
        count: u64,
    },
}

/// Why an operator gets a notice.
#[derive(Clone, Copy, PartialEq, Eq)]
pub enum Cause {
    NoPlace,
    NoDescriptor,
    UnboundFull,
    LoginRefused,
    LongBlock,
    Binary,
    HoldsUp,
    TimedOut(Timeout),
    NoMemory,
    /// Its user had as many connections as it may, so it goes after its login. This cause never has
    /// a line of its own.
    UserFull,
}

/// All causes.
pub(crate) const CAUSES: [Cause; 12] = [
    Cause::NoPlace,
    Cause::NoDescriptor,
    Cause::UnboundFull,
    Cause::LoginRefused,
    Cause::LongBlock,
    Cause::Binary,
    Cause::HoldsUp,
    Cause::TimedOut(Timeout::Login),
    Cause::TimedOut(Timeout::Idle),
    Cause::TimedOut(Timeout::Stalled),
    Cause::NoMemory,
    Cause::UserFull,
];

impl Cause {
    /// Returns its index in `CAUSES`.
    pub(crate) fn place(self) -> usize {
        match self {
            Cause::NoPlace => 0,
            Cause::NoDescriptor => 1,
            Cause::UnboundFull => 2,
            Cause::LoginRefused => 3,
            Cause::LongBlock => 4,
            Cause::Binary => 5,
            Cause::HoldsUp => 6,
            Cause::TimedOut(Timeout::Login) => 7,
            Cause::TimedOut(Timeout::Idle) => 8,
            Cause::TimedOut(Timeout::Stalled) => 9,
            Cause::NoMemory => 10,
            Cause::UserFull => 11,
        }
    }
}

impl Notice {
    /// Returns its cause.
    pub fn cause(&self) -> Cause {
        match self {
            Notice::NoPlace { .. } => Cause::NoPlace,
            Notice::NoDescriptor { .. } => Cause::NoDescriptor,
            Notice::UnboundFull { .. } => Cause::UnboundFull,
            Notice::LoginRefused { .. } => Cause::LoginRefused,
            Notice::LongBlock { .. } => Cause::LongBlock,
            Notice::Binary { .. } => Cause::Binary,
            Notice::HoldsUp { .. } => Cause::HoldsUp,
            Notice::TimedOut { timeout, .. } => Cause::TimedOut(*timeout),
            Notice::NoMemory { .. } => Cause::NoMemory,
            Notice::LeftOut { cause, .. } => *cause,
        }
    }

    /// Returns whose connection it concerns, if it is some user's.
    pub fn user(&self) -> Option<UserNo> {
        match self {
            Notice::LoginRefused { user, .. }
            | Notice::HoldsUp { user, .. }
            | Notice::TimedOut { user, .. }
            | Notice::NoMemory { user, .. }
            | Notice::LeftOut { user, .. } => *user,
            _ => None,
        }
    }
}
