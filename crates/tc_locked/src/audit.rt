//! The replay of a page's calls on the reference.
ghost use Rattle.std.specs.Prelude.{◌≡◌, IfOk, OnOk};
ghost use Rattle.tc_plain.specs.Doing.{act};
ghost use Rattle.tc_locked.specs.Audits.{IsAuditOf};

use crate::call_entry::CallEntry;
use std::alloc::Global;
use tc_item::NoMemory;
use tc_plain::{Journal, Plain, act};
use tc_stats::Outcome;

/// A call whose replay has another outcome than the one answered.
#[derive(Drop)]
pub struct Difference {
    /// Its place on the page, from 0. The entry there has the call and its answer.
    pub place: usize,
    /// Its number among all calls of the user's book, from 1.
    pub number: u64,
    /// The outcome of the replay.
    pub again: Outcome,
}

/// The result of a replay of a page's calls, in order and each at its moment, from the page's
/// opening.
#[derive(Drop)]
pub struct Audit {
    /// How many calls were compared: all of the page, or those up to and including the first that
    /// differs.
    pub compared: usize,
    /// The first call whose outcome differs.
    pub difference: Option<Difference>,
}

/// Runs an entry's command again at its moment, and returns the outcome.
fn do_again(alloc: Global, cache: &mut Plain, entry: &CallEntry) -> Result<Outcome, NoMemory>
    ensures outcome { IfOk result (λ again. again
        ≡ (act cache.old entry.now.moment entry.now.command).0) }
    ensures state { OnOk result (cache.new ≡ (act cache.old entry.now.moment entry.now.command).1) }
{
    let acted = act(
        cache,
        alloc,
        entry.moment,
        entry.command.get(),
        Journal::Off,
    )?;
    Ok(acted.answer)
}

/// Replays the calls of a page on the reference from the page's opening, and compares each outcome
/// with the entry's. It stops at the first difference.
pub fn audit_page(alloc: Global, opening: Plain, entries: &[CallEntry]) -> Result<Audit, NoMemory>
    ensures { IfOk result (λ audit. IsAuditOf opening entries.now audit) }
{
    let mut cache = opening;
    for (place, entry) in entries.iter().enumerate() {
        let again = do_again(alloc, &mut cache, entry)?;
        if !again.is(&entry.outcome) {
            return Ok(Audit {
                compared: place + 1,
                difference: Some(Difference {
                    place,
                    number: entry.number,
                    again,
                }),
            });
        }
    }
    Ok(Audit {
        compared: entries.len(),
        difference: None,
    })
}
