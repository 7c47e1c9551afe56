//! Why the program ends early: its line on standard error and its exit status.

use std::alloc::{AllocError, AllocFailed};
use std::io;
use tc_item::{KeyFault, NoMemory};

/// Why the program ends early.
#[derive(Clone, Copy, Debug)]
pub(crate) enum Fault {
    /// The words after the program's name are neither none nor `--measure` alone.
    Usage,
    /// The allocator refused memory.
    NoMemory,
    /// The clock, the arguments or standard output failed.
    System,
    /// A key made for measuring was refused.
    Unfit,
}

impl Fault {
    /// Returns the line for standard error.
    pub(crate) fn text(self) -> &'static str {
        match self {
            Fault::Usage => "usage: bench [--measure]",
            Fault::NoMemory => "bench: out of memory",
            Fault::System => "bench: the clock, the arguments or standard output failed",
            Fault::Unfit => "bench: a key was refused",
        }
    }

    /// Returns the exit status: 2 for wrong usage, 1 for all else.
    pub(crate) fn status(self) -> u8 {
        match self {
            Fault::Usage => 2,
            Fault::NoMemory | Fault::System | Fault::Unfit => 1,
        }
    }
}

impl From<io::Error> for Fault {
    fn from(_error: io::Error) -> Fault {
        Fault::System
    }
}

impl From<NoMemory> for Fault {
    fn from(_refused: NoMemory) -> Fault {
        Fault::NoMemory
    }
}

impl From<AllocError> for Fault {
    fn from(_refused: AllocError) -> Fault {
        Fault::NoMemory
    }
}

impl<T: Drop> From<AllocFailed<T>> for Fault {
    fn from(_refused: AllocFailed<T>) -> Fault {
        Fault::NoMemory
    }
}

impl From<KeyFault> for Fault {
    fn from(fault: KeyFault) -> Fault {
        match fault {
            KeyFault::NoMemory => Fault::NoMemory,
            KeyFault::Empty | KeyFault::TooLong | KeyFault::BadByte => Fault::Unfit,
        }
    }
}
