//! The name of a hall, and the types of its table.
use crate::view::{OneHistory, View};
use crate::witness::Witness;
use std::alloc::Global;
use std::marker::Brand;

/// The name of a hall: which table it has, and what all its books share.
pub trait Naming {
    ghost use Rattle.atomic_table.specs.Seated.{TableId};
    ghost use Rattle.tc_locked.specs.HallBooks.{Terms};

    ghost table: { TableId };

    ghost terms: { Terms };
}

impl Naming for Brand {
    ghost use Rattle.tc_locked.specs.HallBooks.{no_table, no_terms};

    ghost table = { no_table };

    ghost terms = { no_terms };
}

/// How many cache lines of 64 bytes the words of a hall's table fill. A user's number modulo this
/// picks the user's line.
pub(crate) const LINES: usize = 64;

/// How many words of 8 bytes a cache line has.
pub(crate) const WORDS_A_LINE: usize = 8;

/// How many words a hall's table has.
pub(crate) const WORDS: usize = LINES * WORDS_A_LINE;

/// The part of a hall's table that threads share.
pub type Shared = atomic_table::Shared<Witness, View, (), OneHistory>;

/// A seat of a hall's table.
pub type TableSeat = atomic_table::Seat<Witness, View>;

/// A hall's table.
pub type HallTable = atomic_table::Table<Witness, View, (), OneHistory, Global>;
