//! Prefetches the entries of a turned page just before new ones replace them.
use crate::call_entry::CallEntry;
use std::sync::atomic::{AtomicU64, Ordering};
use tc_grammar::Command;
use tc_stats::{Hits, Outcome};

/// How many entries with one item each are read together.
const AT_ONCE: usize = 16;

/// Returns the length of the hits' data, which reads its memory.
fn data_of_hits(hits: &Hits) -> u64 {
    let mut sum: u64 = 0;
    for hit in hits.as_slice() {
        sum = sum.wrapping_add(hit.blob.len() as u64);
    }
    sum
}

/// Returns the length of the data of an entry with at most one item, or 0.
fn data_of_one(entry: &CallEntry) -> u64 {
    if let Command::Store(_, blob) = entry.command.get() {
        return blob.len() as u64;
    }
    match &entry.outcome {
        Outcome::Values(hits) if hits.len() == 1 => data_of_hits(hits),
        _ => 0,
    }
}

/// Returns the length of the data of an entry with several hits, or 0.
fn data_of_many(entry: &CallEntry) -> u64 {
    match &entry.outcome {
        Outcome::Values(hits) if hits.len() > 1 => data_of_hits(hits),
        _ => 0,
    }
}

/// Sums `data_of_one` over 16 entries from a place on, if the place is a multiple of 16.
fn data_from(entries: &[CallEntry], from: usize) -> u64 {
    let mut sum: u64 = 0;
    if from % AT_ONCE == 0 {
        for place in from..from.saturating_add(AT_ONCE) {
            if let Some(entry) = entries.get(place) {
                sum = sum.wrapping_add(data_of_one(entry));
            }
        }
    }
    sum
}

/// Reads the data of the entry at a place if it has several hits. At each multiple of 16 it also
/// reads the data of the 16 entries from there on, as far as these have one item each.
///
/// Dropping an entry waits for the memory of each data: an atomic counts its holders, and no later
/// read overtakes it. The reads here wait together. Their sum goes to an atomic, so that the
/// compiler keeps them.
pub(crate) fn prefetch(entries: &[CallEntry], from: usize) {
    let Some(entry) = entries.get(from) else {
        return;
    };
    let sum = data_of_many(entry).wrapping_add(data_from(entries, from));
    if sum > 0 {
        AtomicU64::new(0).fetch_add(sum, Ordering::SeqCst);
    }
}
