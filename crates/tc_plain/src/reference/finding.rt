//! What a key holds among the entries that are alive.
ghost use Rattle.std.specs.Prelude.{◌≡◌, ◌<◌, ◌&&◌, length, filter, find, IfSome, MatchOption};
ghost use Rattle.tc_model.specs.Place.{first_place};
ghost use Rattle.tc_plain.specs.Entries.{lives, has_key};

use crate::Entry;
use tc_item::{Moment, alive};

fn is_found(entry: &Entry, key: &[u8], moment: Moment) -> bool
    ensures { result ≡ (lives moment entry.now && has_key key.now entry.now) }
{
    alive(&entry.item, moment) && entry.key.as_bytes() == key
}

/// Returns the place of the first entry of a key that is alive at the moment.
fn find_place(items: &[Entry], key: &[u8], moment: Moment) -> Option<usize>
    ensures place { result ≡ first_place (λ e. lives moment e && has_key key.now e) items.now }
    ensures within { IfSome result (λ i. i < length items.now) }
{
    for (i, entry) in items.iter().enumerate() {
        if is_found(entry, key, moment) {
            return Some(i);
        }
    }
    None
}

/// Returns the first entry of a key that is alive at the moment.
pub fn find_alive<'a>(items: &'a [Entry], key: &[u8], moment: Moment) -> Option<&'a Entry>
    ensures { MatchOption result (find (has_key key.now) (filter (lives moment) items.now) ≡ None)
        (λ e. find (has_key key.now) (filter (lives moment) items.now) ≡ Some e.now) }
{
    let place = find_place(items, key, moment)?;
    Some(&items[place])
}
