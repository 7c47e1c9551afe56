//! Lists of entries: their weight, and entries that enter or leave.
ghost use Rattle.std.specs.Prelude.{◌≡◌, ◌<◌, ◌≤◌, ◌+◌, ◌^◌, ◌++◌, ◌∷◌, [], not, filter, find, sum_by, length, is_some, IfOk};
ghost use Rattle.std.specs.Prelude.{IfSome, MatchOption, vec_len, vec_capacity};
ghost use Rattle.tc_model.specs.Areas.{without};
ghost use Rattle.tc_model.specs.Place.{first_place};
ghost use Rattle.tc_plain.specs.Entries.{weight, lives, has_key};

use crate::Entry;
use std::alloc::Global;
use tc_item::{Moment, NoMemory, alive};

/// Returns what the entries weigh together, in bytes.
pub fn weigh_all(items: &[Entry]) -> u64
    requires { sum_by weight items.now < 2 ^ 64 }
    ensures { result ≡ sum_by weight items.now }
{
    let mut all = 0;
    for entry in items {
        all += entry.weight();
    }
    all
}

/// Removes the entries that are not alive at the moment.
pub fn expire(items: &mut Vec<Entry>, moment: Moment)
    ensures items { items.new.items ≡ filter (lives moment) items.old.items }
    ensures room { (vec_capacity items.new ≡ vec_capacity items.old)
        × (vec_len items.new ≤ vec_len items.old) }
{
    items.retain(|entry| alive(&entry.item, moment));
}

/// Removes all entries of a key.
pub fn take_out(items: &mut Vec<Entry>, key: &[u8])
    ensures items { items.new.items ≡ without (has_key key.now) items.old.items }
    ensures room { (vec_capacity items.new ≡ vec_capacity items.old)
        × (vec_len items.new ≤ vec_len items.old) }
{
    items.retain(|entry| entry.key.as_bytes() != key);
}

/// Returns the place of the first entry of a key.
fn place_of(items: &[Entry], key: &[u8]) -> Option<usize>
    ensures place { result ≡ first_place (has_key key.now) items.now }
    ensures within { IfSome result (λ i. i < length items.now) }
{
    for (i, entry) in items.iter().enumerate() {
        if entry.key.as_bytes() == key {
            return Some(i);
        }
    }
    None
}

/// Removes all entries of a key, and returns the first.
pub fn take_first(items: &mut Vec<Entry>, key: &[u8]) -> Option<Entry>
    ensures entry { result ≡ find (has_key key.now) items.old.items }
    ensures items { items.new.items ≡ without (has_key key.now) items.old.items }
    ensures capacity { vec_capacity items.new ≡ vec_capacity items.old }
    ensures fewer { vec_len items.new ≤ vec_len items.old }
    ensures one_fewer { IfSome result (λ e. vec_len items.new < vec_len items.old) }
{
    let place = place_of(items, key)?;
    let entry = items.remove(place);
    take_out(items, key);
    Some(entry)
}

/// Removes and returns the last entry, if all together weigh more than `most` bytes.
pub fn pop_over(items: &mut Vec<Entry>, most: u64) -> Option<Entry>
    requires { sum_by weight items.old.items < 2 ^ 64 }
    ensures capacity { vec_capacity items.new ≡ vec_capacity items.old }
    ensures len { MatchOption result (vec_len items.new ≡ vec_len items.old)
        (λ e. vec_len items.new + 1 ≡ vec_len items.old) }
    ensures popped { MatchOption result
        ((items.new.items ≡ items.old.items) × (sum_by weight items.old.items ≤ most))
        (λ e. (items.old.items ≡ items.new.items ++ e ∷ [])
        × (most < sum_by weight items.old.items)) }
{
    if weigh_all(items) > most {
        items.pop()
    } else {
        None
    }
}

/// Inserts an entry at the front. The list has room for it.
pub fn put_first(items: &mut Vec<Entry>, entry: Entry)
    requires { vec_len items.old < vec_capacity items.old }
    ensures items { items.new.items ≡ entry ∷ items.old.items }
    ensures len { vec_len items.new ≡ vec_len items.old + 1 }
    ensures capacity { vec_capacity items.new ≡ vec_capacity items.old }
{
    let _ = items.insert(0, entry);
}

/// Returns how many entries there are. Each weighs at least one byte, so there are no more than
/// they weigh.
pub fn count(items: &Vec<Entry>) -> usize
    ensures len { result ≡ vec_len items.now }
    ensures light { result ≤ sum_by weight items.now.items }
{
    items.as_slice().len()
}

/// Copies the entries, in order. The copies share their data. Fails if memory is refused.
pub fn copy_all(alloc: Global, items: &[Entry]) -> Result<Vec<Entry>, NoMemory>
    ensures { IfOk result (λ copied. copied.items ≡ items.now) }
{
    let mut copied = Vec::with_capacity(alloc, items.len())?;
    for entry in items {
        copied.push(entry.copy(alloc)?)?;
    }
    Ok(copied)
}
