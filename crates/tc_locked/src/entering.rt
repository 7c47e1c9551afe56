//! The steps of a hall's table that note an entry with both of its seats.
ghost use Rattle.std.specs.Prelude.{◌≡◌, ◌<◌, ◌≤◌, ◌++◌, ◌∷◌, []};
ghost use Rattle.tc_locked.specs.Views.{table_words, note, book_view, seat_view, by_seat, of_user};
ghost use Rattle.tc_locked.specs.HallBooks.{notes_of, log_of};

use crate::naming::{LINES, Shared, TableSeat, WORDS_A_LINE};
use crate::view::{Apart, Noted, Together, View};
use crate::witness::Witness;
use atomic_table::Badge;
use tc_users::UserNo;

/// Returns the place of the word by which a user's entries are noted. The words of users whose
/// numbers differ modulo 64 are at least 64 bytes apart, so processors that serve them don't
/// contend for a cache line. Users 1 and 65 share a word, and users 64, 128 and so on have word 0,
/// which every join and split loads.
fn word_of(user: UserNo) -> usize
    ensures { result < table_words }
{
    user.number() as usize % LINES * WORDS_A_LINE
}

/// Appends a note of the entry to the list of the caller's seat and to that of the book's seat, in
/// one step.
pub fn note_both(
    table: &Shared,
    seat: &mut TableSeat,
    number: usize,
    badge: Badge<View>,
    user: UserNo,
    page: u64,
    entry: &Witness,
) -> Badge<View>
    requires words { table_words ≤ table.now.table_id.words }
    requires seat { (seat.old.table_id ≡ table.now.table_id)
        × (seat.old.me ≡ (seat_view number (notes_of seat.old.me.0.seats), [])) }
    requires badge { (badge.table_id ≡ table.now.table_id)
        × (badge.views ≡ book_view user (log_of badge.views) ∷ []) }
    requires entry { entry.now.seat ≡ number }
    ensures seat { (seat.new.table_id ≡ table.now.table_id)
        × (seat.new.me ≡ (
          seat_view number
              (notes_of seat.old.me.0.seats ++ note user page entry.now ∷ []),
          [],
        )) }
    ensures tied { by_seat number (log_of badge.views ++ note user page entry.now ∷ [])
        ≡ of_user user (notes_of seat.old.me.0.seats ++ note user page entry.now ∷ []) }
    ensures badge { (result.table_id ≡ table.now.table_id)
        × (result.views
        ≡ book_view user (log_of badge.views ++ note user page entry.now ∷ []) ∷ []) }
{
    let own = badge.into_seat::<Witness>();
    table.join_seat::<Together>(seat, own);
    let word = word_of(user);
    table.compare_exchange_with::<Noted>(seat, word, page, page, entry);
    let own = table.split_seat::<Apart>(seat);
    own.into_badge()
}
