//! Audits: the entries of a page, replayed from the state that it began with.
use super::commands::{get, set};
use std::alloc::Global;
use std::test::*;
use tc_grammar::Command;
use tc_item::Moment;
use tc_locked::{Audit, CallEntry, Closed, KeptCommand, Naming, Unread, audit_page};
use tc_plain::{Cache, Journal, Plain, act};
use tc_stats::Outcome;
use tc_users::UserNo;

/// Returns whether an audit compared this many calls and found no difference.
fn agrees(audit: &Audit, calls: usize) -> bool {
    audit.compared == calls && audit.difference.is_none()
}

/// Returns whether the hall's own audit of a user's page compared this many calls and found no
/// difference.
fn is_audited<C: Cache, N: Naming>(
    alloc: Global,
    closed: &Closed<C, N>,
    user: UserNo,
    entries: usize,
) -> Result<bool, Fail> {
    match closed.audit(alloc, user)? {
        Some(audit) => Ok(agrees(&audit, entries)),
        None => Ok(false),
    }
}

/// Returns whether this many entries replay from an opening to their outcomes.
fn leads(alloc: Global, opening: Plain, page: &[CallEntry], entries: usize) -> Result<bool, Fail> {
    Ok(agrees(&audit_page(alloc, opening, page)?, entries))
}

/// Returns whether the page that the hall shows replays from the opening that it shows.
fn is_shown<C: Cache, N: Naming>(
    alloc: Global,
    closed: &Closed<C, N>,
    user: UserNo,
    entries: usize,
) -> Result<bool, Fail> {
    let Some(page) = closed.page(user)? else {
        return Ok(false);
    };
    match closed.opening(alloc, user)? {
        Some(opening) => leads(alloc, opening, page, entries),
        None => Ok(false),
    }
}

/// Returns whether nothing of a user's page can be read because the journal is off.
fn is_off<C: Cache, N: Naming>(alloc: Global, closed: &Closed<C, N>, user: UserNo) -> bool {
    matches!(closed.audit(alloc, user), Err(Unread::Off))
        && matches!(closed.page(user), Err(Unread::Off))
        && matches!(closed.opening(alloc, user), Err(Unread::Off))
}

/// Returns whether a user's page has this many entries, which replay from its opening. Without a
/// journal, returns whether nothing of it can be read.
pub fn has_page<C: Cache, N: Naming>(
    alloc: Global,
    closed: &Closed<C, N>,
    keeps: Journal,
    user: u32,
    entries: usize,
) -> Result<bool, Fail> {
    let user = UserNo::new(user);
    match keeps {
        Journal::On => {
            Ok(is_audited(alloc, closed, user, entries)? && is_shown(alloc, closed, user, entries)?)
        }
        Journal::Off => Ok(is_off(alloc, closed, user)),
    }
}

/// Makes a call of a plain cache at second 5. Returns it as the entry with this number.
fn entry_of(
    alloc: Global,
    cache: &mut Plain,
    number: u64,
    command: Command,
) -> Result<CallEntry, Fail> {
    let moment = Moment::new(5);
    let outcome = act(cache, alloc, moment, &command, Journal::Off)?.answer;
    Ok(CallEntry {
        seat: 0,
        tally: number,
        number,
        moment,
        conn: 1,
        command: KeptCommand::of(alloc, &command)?,
        outcome,
    })
}

/// Makes a call of a plain cache, and appends its entry.
fn enter(
    alloc: Global,
    cache: &mut Plain,
    entries: &mut Vec<CallEntry>,
    number: u64,
    command: Command,
) -> Result<(), Fail> {
    let entry = entry_of(alloc, cache, number, command)?;
    entries.push(entry)?;
    Ok(())
}

/// Enters a `get`, a `set` and a `get`, as entries 41 to 43.
fn enter_three(alloc: Global, cache: &mut Plain, entries: &mut Vec<CallEntry>) -> Result<(), Fail> {
    enter(alloc, cache, entries, 41, get(alloc)?)?;
    enter(alloc, cache, entries, 42, set(alloc, b"abc")?)?;
    enter(alloc, cache, entries, 43, get(alloc)?)
}

/// Returns the entries of a `get`, a `set` and a `get` on an empty cache.
fn three_entries(alloc: Global) -> Result<Vec<CallEntry>, Fail> {
    let mut cache = Plain::new(alloc, 65_536, 1_024)?;
    let mut entries = Vec::new(alloc);
    enter_three(alloc, &mut cache, &mut entries)?;
    Ok(entries)
}

/// Audits the entries from an empty cache.
fn audit_of(alloc: Global, entries: &[CallEntry]) -> Result<Audit, Fail> {
    Ok(audit_page(alloc, Plain::new(alloc, 65_536, 1_024)?, entries)?)
}

/// Replaces the outcome of the second entry by one that its call did not have.
fn forge(entries: &mut Vec<CallEntry>) {
    if let Some(entry) = entries.get_mut(1) {
        entry.outcome = Outcome::NotFound;
    }
}

/// Returns whether the audit stops at the second entry, number 42, a `set` that was stored.
fn tells_of_the_set(audit: &Audit) -> bool {
    match &audit.difference {
        Some(it) => {
            let here = audit.compared == 2 && it.place == 1 && it.number == 42;
            here && matches!(it.again, Outcome::Stored)
        }
        None => false,
    }
}

/// Guards the use of audits: a reply that the cache did not give must be found and named.
#[test]
fn a_forged_outcome_is_found(rt: HostRuntime) -> Result<(), Fail> {
    let alloc = rt.alloc();
    let mut entries = three_entries(alloc)?;
    let agreed = agrees(&audit_of(alloc, &entries)?, 3);
    forge(&mut entries);
    let told = tells_of_the_set(&audit_of(alloc, &entries)?);
    assert!(&rt; agreed && told);
    Ok(())
}
