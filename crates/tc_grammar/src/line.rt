//! The result of reading a line.
ghost use Rattle.std.specs.Prelude.{◌≡◌};
ghost use Rattle.tc_grammar.specs.Lines.{unknown, bad_format, ready};

use crate::command::{Command, Head};
use crate::fault::Fault;

/// What a line spells.
#[derive(Debug, PartialEq, Eq, Drop)]
pub enum Line {
    /// A whole command.
    Ready(Command),
    /// A storage line. A block of this many bytes and a line end follow it.
    NeedsBlock(Head, u32),
    /// A fault. It gets no reply if `quiet`. The reader skips `skip` bytes behind the line, at most
    /// 2^31 + 1.
    Refused {
        fault: Fault,
        quiet: bool,
        skip: u32,
    },
}

/// Returns the fault of a name that no command has.
pub(crate) fn refuse_unknown() -> Line
    ensures { result ≡ unknown }
{
    Line::Refused {
        fault: Fault::UnknownCommand,
        quiet: false,
        skip: 0,
    }
}

/// Returns the fault of a line of the wrong form, with the bytes to skip behind it.
pub(crate) fn refuse_format(skip: u32) -> Line
    ensures { result ≡ bad_format skip }
{
    Line::Refused {
        fault: Fault::BadFormat,
        quiet: false,
        skip,
    }
}

/// Returns the line of a command, or a bad format if there is none.
pub(crate) fn ready(command: Option<Command>) -> Line
    ensures { result ≡ ready command }
{
    match command {
        None => refuse_format(0),
        Some(command) => Line::Ready(command),
    }
}
