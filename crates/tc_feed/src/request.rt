//! The next request of a stream.
ghost use Rattle.std.specs.Prelude.{◌≡◌};

use tc_grammar::{Command, Fault};

/// A whole request, or a fault in its place.
#[derive(Debug, PartialEq, Eq, Drop)]
pub enum Request {
    /// A command, with its block if it has one.
    Ask(Command),
    /// A fault. It gets no reply if `quiet`.
    Refused { fault: Fault, quiet: bool },
}

/// A request, the number of bytes that it takes, and the number behind it that are skipped.
#[derive(PartialEq, Eq, Drop)]
pub(crate) struct Framed {
    pub request: Request,
    pub length: usize,
    pub skip: usize,
}

impl Framed {
    /// Returns a request of `length` bytes that skips none.
    pub fn whole(request: Request, length: usize) -> Framed
        ensures { result ≡ record { request = request; length = length; skip = 0 } }
    {
        Framed {
            request,
            length,
            skip: 0,
        }
    }
}
