//! One call as a book keeps it, and what its caller receives.
ghost use Rattle.std.specs.Prelude.{◌≡◌};
ghost use Rattle.tc_locked.specs.Witnesses.{entry_from};

use crate::kept_command::KeptCommand;
use std::mem::size_of;
use tc_grammar::Command;
use tc_item::Moment;
use tc_stats::Outcome;

/// All of an entry but its command and its outcome.
#[derive(Clone, Copy)]
pub struct Numbers {
    pub seat: usize,
    pub tally: u64,
    pub number: u64,
    pub moment: Moment,
    pub conn: u32,
}

/// One call of a user's cache.
#[derive(Drop)]
pub struct CallEntry {
    /// The number of the calling seat, from 0.
    pub seat: usize,
    /// Number of entries that the seat has made in this book, this one included.
    pub tally: u64,
    /// Number of entries in this book, this one included.
    pub number: u64,
    /// When the cache ran the command.
    pub moment: Moment,
    /// The connection, by the caller's number.
    pub conn: u32,
    pub command: KeptCommand,
    pub outcome: Outcome,
}

const _: () = prove!(size_of::<CallEntry>() == 120);

const _: () = prove!(size_of::<Command>() == 88);

impl CallEntry {
    /// The entry of these numbers, this command and this outcome.
    pub(crate) fn of(numbers: Numbers, command: KeptCommand, outcome: Outcome) -> CallEntry
        ensures { result ≡ entry_from numbers command outcome }
    {
        CallEntry {
            seat: numbers.seat,
            tally: numbers.tally,
            number: numbers.number,
            moment: numbers.moment,
            conn: numbers.conn,
            command,
            outcome,
        }
    }
}

/// How many bytes an entry takes without what it points to.
const ENTRY: u64 = 120;

/// How many bytes its boxed command takes.
const COMMAND: u64 = 88;

/// How many bytes each key of a look-up with several keys takes.
const KEY: u64 = 24;

/// How many bytes each hit of a look-up with several hits takes.
const HIT: u64 = 56;

/// Returns how many bytes a list of `count` elements takes beside its owner, which holds a single
/// one in place.
fn listed(count: usize, each: u64) -> u64 {
    if count > 1 {
        (count as u64).saturating_mul(each)
    } else {
        0
    }
}

/// Returns how many bytes a command keeps beside its entry, with its data.
fn kept_by(command: &Command) -> u64 {
    match command {
        Command::Store(_, blob) => blob.len() as u64,
        Command::Get { form: _, keys } => listed(keys.len(), KEY),
        Command::Gat { keys, .. } => listed(keys.len(), KEY),
        _ => 0,
    }
}

/// Returns how many bytes an outcome keeps beside its entry, with the data that it shows.
fn shown_by(outcome: &Outcome) -> u64 {
    let Outcome::Values(hits) = outcome else {
        return 0;
    };
    let mut bytes = listed(hits.len(), HIT);
    for hit in hits.as_slice() {
        bytes = bytes.saturating_add(hit.blob.len() as u64);
    }
    bytes
}

impl CallEntry {
    /// Returns how many bytes the entry keeps, with the data that it shares with the cache.
    pub(crate) fn bytes(&self) -> u64 {
        (ENTRY + COMMAND)
            .saturating_add(kept_by(self.command.get()))
            .saturating_add(shown_by(&self.outcome))
    }
}

/// What the caller receives of its entry.
#[derive(Drop)]
pub struct Slip {
    /// How many pages were turned before the call was entered.
    pub page: u64,
    /// The entry's number in the user's book, from 1.
    pub number: u64,
    /// The entry's number among those of its seat in this book, from 1.
    pub tally: u64,
    /// When the cache ran the command.
    pub moment: Moment,
    pub outcome: Outcome,
}
