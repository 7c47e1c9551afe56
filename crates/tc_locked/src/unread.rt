//! Why a page's entries or opening can't be read.
ghost use Rattle.std.specs.Prelude.{◌≡◌};
ghost use Rattle.tc_locked.specs.declared.unread.Unread.TheVariants.{NoMemory as OutOfMemory};

use std::error::Error;
use std::fmt;
use tc_item::NoMemory;

/// Why a page's entries or opening can't be read.
#[derive(Clone, Copy, Debug, PartialEq, Eq)]
pub enum Unread {
    /// The allocator refused memory.
    NoMemory,
    /// The hall's journal is off, so memory keeps neither.
    Off,
}

impl fmt::Display for Unread {
    fn fmt<W: fmt::Write>(&self, f: &mut fmt::Formatter<W>) -> fmt::Result {
        match self {
            Unread::NoMemory => write!(f, "out of memory"),
            Unread::Off => write!(f, "the journal is off"),
        }
    }
}

impl Error for Unread {}

impl From<NoMemory> for Unread {
    ghost from_gives = { λ _ e. e ≡ OutOfMemory };

    fn from(_refused: NoMemory) -> Unread {
        Unread::NoMemory
    }
}
