//! The hits of keys.
ghost use Rattle.std.specs.Prelude.{◌≡◌, ◌+◌, ◌<◌, ◌≤◌, ◌++◌, ◌&&◌, cond, length};
ghost use Rattle.std.specs.Prelude.{Some, None, option_map, option_to_list, vec_capacity, IfOk, OnOk};
ghost use Rattle.std.specs.Option.{option_copied};
ghost use Rattle.std.specs.Str.{bytes_eq};
ghost use Rattle.std.specs.List.{list_any};
ghost use Rattle.tc_plain.specs.Entries.{hit_of};
ghost use Rattle.tc_plain.specs.AreaLists.{is_due};

use crate::Entry;
use std::alloc::Global;
use tc_item::{Due, Key, Moment, NoMemory};
use tc_stats::{Hit, Hits};

/// Returns whether there is a due and the moment has reached it.
pub fn is_due(due: Option<Due>, moment: Moment) -> bool
    ensures { result ≡ is_due due moment }
{
    match due {
        None => false,
        Some(due) => !due.is_after(moment),
    }
}

/// Returns whether the key is one of the keys.
fn is_asked(keys: &[Key], key: &Key) -> bool
    ensures { result ≡ list_any (λ k. bytes_eq k key.now) keys.now }
{
    keys.iter().any(|asked| asked == key)
}

/// Returns the hit of the entry that one key was found to hold, or none. Fails if memory is
/// refused.
#[inline(always)]
pub fn show_one(alloc: Global, found: Option<&Entry>) -> Result<Hits, NoMemory>
    ensures { IfOk result (λ hits. hits
        ≡ option_to_list (option_map hit_of (option_copied found.entry))) }
{
    match found {
        Some(entry) => Ok(Hits::one(entry.show(alloc)?)),
        None => Ok(Hits::new()),
    }
}

/// Appends the hit of the entry that a key was found to hold; `hits` has room for it. If `gone`,
/// the first hit of a key expires its entry, so a key in `asked` shows nothing. Fails if memory is
/// refused.
#[inline(always)]
pub fn add_next(
    alloc: Global,
    asked: &[Key],
    key: &Key,
    entry: &Entry,
    gone: bool,
    hits: &mut Vec<Hit>,
) -> Result<(), NoMemory>
    requires { length hits.old.items < vec_capacity hits.old }
    ensures hits { OnOk result (hits.new.items ≡ hits.old.items
        ++ option_to_list (cond (gone && list_any (λ k. bytes_eq k key.now) asked.now) None
        (Some (hit_of entry.now)))) }
    ensures capacity { vec_capacity hits.new ≡ vec_capacity hits.old }
    ensures long { length hits.new.items ≤ length hits.old.items + 1 }
{
    if gone && is_asked(asked, key) {
        return Ok(());
    }
    hits.push_reserved(entry.show(alloc)?);
    Ok(())
}
