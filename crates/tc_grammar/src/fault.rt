//! All faults of the server, with their numbers and texts: the only place that has them.
ghost use Rattle.std.specs.Prelude.{◌≡◌};
ghost use Rattle.tc_grammar.specs.Faults.{fault_number, fault_text};

/// Why the server refuses a request.
#[derive(Clone, Copy, Debug, PartialEq, Eq)]
pub enum Fault {
    /// The line has no token, or its first is no command's name.
    UnknownCommand = 1,
    /// The name is known, but the tokens behind it have another form.
    BadFormat,
    /// No line end follows a block.
    BadChunk,
    /// The line has more than 65,536 bytes.
    LineTooLong,
    /// A block is over the limit, or an item has too much data or is too heavy.
    TooLarge,
    /// The allocator refused memory.
    NoMemory,
    /// `incr` or `decr` found data that is no number.
    NotNumeric,
    /// The value of an `incr` or `decr` is no number.
    BadDelta,
    /// A command came before a login.
    Unauthenticated,
    /// The data of a login is not a user's name and token.
    AuthenticationFailure,
    /// The last cas number is taken.
    CasWorn,
}

impl Fault {
    /// Returns the fault's number, 1 to 11.
    pub fn number(self) -> u8
        ensures { result ≡ fault_number self }
    {
        self as u8
    }

    /// Returns the reply to the fault, without the line end.
    pub fn text(self) -> &'static str
        ensures { result.now ≡ fault_text self }
    {
        match self {
            Fault::UnknownCommand => "ERROR",
            Fault::BadFormat => "CLIENT_ERROR bad command line format",
            Fault::BadChunk => "CLIENT_ERROR bad data chunk",
            Fault::LineTooLong => "CLIENT_ERROR line too long",
            Fault::TooLarge => "SERVER_ERROR object too large for cache",
            Fault::NoMemory => "SERVER_ERROR out of memory",
            Fault::NotNumeric => "CLIENT_ERROR cannot increment or decrement non-numeric value",
            Fault::BadDelta => "CLIENT_ERROR invalid numeric delta argument",
            Fault::Unauthenticated => "CLIENT_ERROR unauthenticated",
            Fault::AuthenticationFailure => "CLIENT_ERROR authentication failure",
            Fault::CasWorn => "SERVER_ERROR cas numbers exhausted",
        }
    }
}
