//! Books under locks: each user's cache sits in a book that records every call as a history.
//!
//! # Terms
//!
//! - A cache's **state** is the one that it has once its deferred work is done (the trait `Cache`
//!   of tc_plain).
//! - An **entry** is one call: its seat, moment, connection, command and outcome, with its number
//!   in the book and in its seat.
//! - A **page** is the entries since it began. Its **opening** is the state that the cache had at
//!   that point.
//! - A **turn** ends a full page: the next call's entry begins a new one, whose opening is the
//!   cache's state just before that call.
//! - A **book** is one user's cache with its page and the counts of its entries. A `HallBook` is a
//!   book as it lies under its user's lock, with the notes of all its pages.
//! - A **hall** has a `HallBook` for each user. Its name is a type (`Naming`), which fixes its
//!   table, the caches that its users begin with, the number of seats and the length of a page.
//! - A **seat** is what a thread calls a hall with. It shows the entries that it wrote, in any
//!   book. Its type rejects a seat of another hall.
//! - A **receipt** is what a successful call returns: the user whose book has the entry, and the
//!   entry's slip.
//! - A **lease** is a user's lock that a thread keeps from one call to the next. Contracts know
//!   what lies under it by its type alone, as under any lock.
//! - **Refusals** are the calls that the hall refused, in proofs alone (`Hall::call_with`).
//!
//! # What is kept in memory
//!
//! If the hall's journal is on (`--audit`), a page keeps its entries. The book freezes the cache
//! into a `Plain` when it opens, and again before the call that turns a page.
//!
//! If the journal is off, entries and openings exist in proofs alone. Nothing is frozen.
//!
//! # What is always true
//!
//! 1. A book is legal: from its opening, its entries give their outcomes. The state that they
//!    leave, advanced to the book's moment, is the cache's state (`IsBook` in `specs/Books.antt`).
//! 2. A `HallBook` is legal over all its pages, from the user's empty cache on. Each turned page
//!    had exactly the hall's page length of entries (`IsHallBook` in `specs/HallBooks.antt`).
//! 3. An entry is in the notes of its seat and of its book, or in neither. A call holds the lock
//!    while it joins the caller's seat with the book's, notes its entry in both at once, and splits
//!    them. Both lists are parts of one history in the rule of the hall's table (`specs/Rule.antt`,
//!    `specs/Views.antt`).
//! 4. A refused call leaves the book and the seat unchanged (`HallBook::call` `unchanged_on_err`).
//!    A call takes all its memory before it changes the cache's state.
//!
//! `Hall::close` returns the books and the seats, and says that each seat's entries in a book are
//! what the seat wrote there (`specs/Closing.antt`). `Closed::audit` replays a user's last page on
//! the reference from its opening, and reports the first call whose outcome differs. Its contract
//! proves that none does (`specs/Audits.antt`).
//!
//! # What no clause says
//!
//! - That memory suffices, that a thread ever gets a lock, or in which order the calls of two seats
//!   are entered.
//! - That a user's lock guards that user's book. `Hall::call` and `Hall::call_with` check it on
//!   each call and refuse another user's (`CallFault::OtherBook`); `maintain`, `read_ahead` and
//!   `journal_bytes` don't check.
//! - What `Hall::maintain` does: only `Book::maintain` and `HallBook::maintain` have clauses.
//! - That `Clock::advance` raises the clock.
#![tactic(auto)]

mod audit;
mod book;
mod call_entry;
mod call_fault;
mod called;
mod clock;
mod closed;
mod closing;
mod entering;
mod hall;
mod hall_book;
mod kept_command;
mod lease;
mod locking;
pub mod naming;
mod old_entries;
mod opening;
mod page;
mod receipt;
mod refusals;
mod seat;
mod unread;
pub mod view;
mod witness;

pub use audit::{Audit, Difference, audit_page};
pub use book::Book;
pub use call_entry::{CallEntry, Numbers, Slip};
pub use call_fault::CallFault;
pub use called::Called;
pub use clock::Clock;
pub use closed::{Closed, Missing};
pub use hall::Hall;
pub use hall_book::HallBook;
pub use kept_command::KeptCommand;
pub use lease::Lease;
pub use naming::Naming;
pub use opening::Opened;
pub use receipt::Receipt;
pub use refusals::{Refusals, Refused};
pub use seat::Seat;
pub use unread::Unread;
pub use witness::Witness;
