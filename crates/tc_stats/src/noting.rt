//! How commands and their outcomes raise a user's counters.
ghost use Rattle.std.specs.Prelude.{◌≡◌};
ghost use Rattle.tc_stats.specs.UserCounters.{no_counts, more, noted_store, noted_cas, noted_by_kind, hit_count, noted_get};
ghost use Rattle.tc_stats.specs.UserCounters.{noted_touch, noted_touched, noted_delete, noted_count, noted};

use crate::{Counters, Outcome};
use tc_grammar::{Command, StoreKind, Way};

/// Adds to a count, which stops at 2^64-1.
fn raise(count: &mut u64, by: u64)
    ensures { count.new ≡ more count.old by }
{
    *count = count.saturating_add(by);
}

/// Returns the number of hits of an outcome; 0 if it is no look-up's.
fn hit_count(outcome: &Outcome) -> u64
    ensures { result ≡ hit_count outcome.now }
{
    match outcome {
        Outcome::Values(hits) => hits.len() as u64,
        _ => 0,
    }
}

impl Counters {
    /// Returns all counters at 0.
    pub fn new() -> Counters
        ensures { result ≡ no_counts }
    {
        Counters::default()
    }

    /// Counts a command that ended in this outcome. Evictions and the four counters that the cache
    /// sets are unchanged.
    pub fn note(&mut self, command: &Command, outcome: &Outcome)
        ensures { self.new ≡ noted command.now outcome.now self.old }
    {
        match command {
            Command::Store(head, _) => self.note_by_kind(head.kind, outcome),
            Command::Get { form: _, keys } => {
                self.note_get(keys.len() as u64, hit_count(outcome));
            }
            Command::Gat {
                form: _,
                exptime: _,
                keys,
            } => {
                self.note_get(keys.len() as u64, hit_count(outcome));
                self.note_touch(keys.len() as u64, hit_count(outcome));
            }
            Command::Delete { .. } => self.note_delete(outcome),
            Command::Count { way, .. } => self.note_count(*way, outcome),
            Command::Touch { .. } => self.note_touched(outcome),
            Command::Flush { .. } => raise(&mut self.cmd_flush, 1),
            Command::Stats | Command::Version | Command::Verbosity { .. } | Command::Quit => {}
        }
    }

    /// Counts a storage command of this kind.
    fn note_by_kind(&mut self, kind: StoreKind, outcome: &Outcome)
        ensures { self.new ≡ noted_by_kind kind outcome.now self.old }
    {
        self.note_store(outcome);
        if matches!(kind, StoreKind::Cas) {
            self.note_cas(outcome);
        }
    }

    /// Counts what all storage commands count.
    fn note_store(&mut self, outcome: &Outcome)
        ensures { self.new ≡ noted_store outcome.now self.old }
    {
        raise(&mut self.cmd_set, 1);
        match outcome {
            Outcome::Stored => raise(&mut self.total_items, 1),
            Outcome::TooLarge => raise(&mut self.store_too_large, 1),
            _ => {}
        }
    }

    /// Counts what `cas` alone counts.
    fn note_cas(&mut self, outcome: &Outcome)
        ensures { self.new ≡ noted_cas outcome.now self.old }
    {
        match outcome {
            Outcome::NotFound => raise(&mut self.cas_misses, 1),
            Outcome::Stored => raise(&mut self.cas_hits, 1),
            Outcome::Exists => raise(&mut self.cas_badval, 1),
            _ => {}
        }
    }

    /// Counts the keys that a look-up asked for and those that it found.
    fn note_get(&mut self, asked: u64, hits: u64)
        ensures { self.new ≡ noted_get asked hits self.old }
    {
        raise(&mut self.cmd_get, asked);
        raise(&mut self.get_hits, hits);
        raise(&mut self.get_misses, asked.saturating_sub(hits));
    }

    /// Counts the keys that should get a new due and those that were found.
    fn note_touch(&mut self, asked: u64, hits: u64)
        ensures { self.new ≡ noted_touch asked hits self.old }
    {
        raise(&mut self.cmd_touch, asked);
        raise(&mut self.touch_hits, hits);
        raise(&mut self.touch_misses, asked.saturating_sub(hits));
    }

    /// Counts a `touch`.
    fn note_touched(&mut self, outcome: &Outcome)
        ensures { self.new ≡ noted_touched outcome.now self.old }
    {
        self.note_touch(1, matches!(outcome, Outcome::Touched) as u64);
    }

    /// Counts a `delete`.
    fn note_delete(&mut self, outcome: &Outcome)
        ensures { self.new ≡ noted_delete outcome.now self.old }
    {
        match outcome {
            Outcome::NotFound => raise(&mut self.delete_misses, 1),
            Outcome::Deleted => raise(&mut self.delete_hits, 1),
            _ => {}
        }
    }

    /// Counts an `incr` or a `decr`.
    fn note_count(&mut self, way: Way, outcome: &Outcome)
        ensures { self.new ≡ noted_count way outcome.now self.old }
    {
        match (way, outcome) {
            (Way::Incr, Outcome::NotFound) => raise(&mut self.incr_misses, 1),
            (Way::Incr, Outcome::Number(_)) => raise(&mut self.incr_hits, 1),
            (Way::Decr, Outcome::NotFound) => raise(&mut self.decr_misses, 1),
            (Way::Decr, Outcome::Number(_)) => raise(&mut self.decr_hits, 1),
            _ => {}
        }
    }
}
