//! What the seats of a hall's table know, and the table's rule. No value of these structs is made.
use crate::call_entry::CallEntry;
use crate::witness::Witness;
use atomic_table::{Join, Play, Split, TableRule};
use std::collections::LinkedList;
use tc_users::UserNo;

/// An entry, with its user and its page.
pub struct Note {
    pub user: UserNo,
    pub page: u64,
    pub entry: CallEntry,
}

/// The notes of a user's book, or of a caller's seat, under its number.
pub struct Face {
    pub number: u64,
    pub notes: LinkedList<Note>,
}

/// What a seat of the table knows: the lists of some books and of some callers' seats.
pub struct View {
    pub mints: bool,
    pub books_made: u64,
    pub seats_made: u64,
    pub books: LinkedList<Face>,
    pub seats: LinkedList<Face>,
}

/// The lists of all seats are parts of one history.
pub struct OneHistory;

impl TableRule<Witness, View, ()> for OneHistory {
    ghost use Rattle.tc_locked.specs.Rule.{Holds};
    ghost use Rattle.tc_locked.specs.Views.{first_view};

    ghost holds = { λ _. Holds };

    ghost first = { λ _. first_view 1 0 };
}

/// The play that notes an entry.
pub struct Noted;

impl Play<Witness, View> for Noted {
    ghost use Rattle.tc_locked.specs.Rule.{Adds};

    ghost then = { Adds };
}

/// The play that shows that seats and books agree.
pub struct Compared;

impl Play<Witness, View> for Compared {
    ghost use Rattle.tc_locked.specs.Rule.{Ties};

    ghost then = { Ties };
}

/// The first seat splits off a book's seat.
pub struct NewBook;

impl Split<View> for NewBook {
    ghost use Rattle.tc_locked.specs.Views.{with_book, new_book};

    ghost left = { with_book };

    ghost right = { new_book };
}

/// The first seat splits off a caller's seat.
pub struct NewSeat;

impl Split<View> for NewSeat {
    ghost use Rattle.tc_locked.specs.Views.{with_seat, new_seat};

    ghost left = { with_seat };

    ghost right = { new_seat };
}

/// A seat keeps its callers' lists and splits off those of its books.
pub struct Apart;

impl Split<View> for Apart {
    ghost use Rattle.tc_locked.specs.Views.{seats_of, books_of};

    ghost left = { seats_of };

    ghost right = { books_of };
}

/// A seat takes over all that another knows.
pub struct Together;

impl Join<View> for Together {
    ghost use Rattle.tc_locked.specs.Views.{both_of, blank};

    ghost both = { both_of };

    ghost spent = { blank };
}
