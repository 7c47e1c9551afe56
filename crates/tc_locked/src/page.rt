//! The entries of a page: in proofs always, and in memory if the journal is on.
ghost use Rattle.std.specs.Prelude.{◌≡◌, ◌+◌, ◌^◌, ◌<◌, ◌≤◌, ◌++◌, ◌∷◌, [], length, take, vec_len, vec_capacity};
ghost use Rattle.std.specs.Prelude.{IfOk, OnOk, IfErr};
ghost use Rattle.tc_plain.specs.declared.shared.journal.Journal.TheVariants.{On, Off as IsOff};
ghost use Rattle.tc_plain.specs.Keeping.{kept_by};
ghost use Rattle.tc_locked.specs.Witnesses.{entry_from};
ghost use Rattle.tc_locked.specs.Pages.{entries_on, IsPage, HasRoom};

use crate::call_entry::{CallEntry, Numbers};
use crate::kept_command::KeptCommand;
use crate::old_entries::prefetch;
use crate::unread::Unread;
use crate::witness::Witness;
use http_server::Log;
use std::alloc::Global;
use tc_grammar::Command;
use tc_item::NoMemory;
use tc_plain::{Journal, KeptOutcome};
use tc_stats::Outcome;

/// The entries of a page. If the journal is off, nobody can read them, and they take no memory.
#[derive(Drop)]
pub struct Page {
    /// The entries, in proofs alone.
    pub(crate) noted: Log<Witness, Numbers>,
    /// How many entries there are.
    pub(crate) used: usize,
    /// The entries, and behind them those of the last page that are not yet replaced.
    pub(crate) kept: Vec<CallEntry>,
    /// Whether memory keeps the entries.
    pub(crate) journal: Journal,
}

/// Writes an entry behind the first `used`, over an old one if there is one.
fn put(entries: &mut Vec<CallEntry>, used: usize, entry: CallEntry)
    requires within { used ≤ length entries.old.items }
    requires room { length entries.old.items ≤ used
        → vec_len entries.old < vec_capacity entries.old }
    ensures entries { take (used + 1) entries.new.items
        ≡ take used entries.old.items ++ entry ∷ [] }
    ensures within { used + 1 ≤ length entries.new.items }
{
    if used < entries.len() {
        prefetch(entries.as_slice(), used);
        entries[used] = entry;
    } else {
        entries.push_reserved(entry);
    }
}

/// Keeps an entry behind the first `used`, made of the two copies. Keeps nothing if the journal is
/// off.
fn keep(
    entries: &mut Vec<CallEntry>,
    used: usize,
    journal: Journal,
    numbers: Numbers,
    command: &Command,
    copy: Option<KeptCommand>,
    answer: &Outcome,
    outcome: Option<KeptOutcome>,
)
    requires copy { copy ≡ kept_by journal command.now }
    requires outcome { outcome ≡ kept_by journal answer.now }
    requires within { journal ≡ On → used ≤ length entries.old.items }
    requires room { journal ≡ On → length entries.old.items ≤ used
        → vec_len entries.old < vec_capacity entries.old }
    ensures entries { journal ≡ On → take (used + 1) entries.new.items
        ≡ take used entries.old.items ++ entry_from numbers command.now answer.now ∷ [] }
    ensures within { journal ≡ On → used + 1 ≤ length entries.new.items }
{
    match (copy, outcome) {
        (Some(command), Some(outcome)) => put(
            entries,
            used,
            CallEntry::of(numbers, command, outcome.into_outcome()),
        ),
        (_, _) => {}
    }
}

impl Page {
    /// An empty page.
    pub(crate) fn new(alloc: Global, journal: Journal) -> Page
        ensures page { IsPage result }
        ensures entries { entries_on result ≡ [] }
        ensures journal { result.journal ≡ journal }
    {
        Page {
            noted: Log::new(),
            used: 0,
            kept: Vec::new(alloc),
            journal,
        }
    }

    /// Reserves room for one more entry if the journal is on.
    pub(crate) fn reserve(&mut self) -> Result<(), NoMemory>
        requires { IsPage self.old }
        ensures page { IsPage self.new }
        ensures entries { entries_on self.new ≡ entries_on self.old }
        ensures journal { self.new.journal ≡ self.old.journal }
        ensures room { OnOk result (HasRoom self.new) }
    {
        match self.journal {
            Journal::On => {
                if self.kept.len() <= self.used {
                    self.kept.reserve(1)?;
                }
                Ok(())
            }
            Journal::Off => Ok(()),
        }
    }

    /// Adds an entry and returns it. `copy` and `outcome` are the command and `answer` once more,
    /// to keep if the journal is on.
    pub(crate) fn add(
        &mut self,
        numbers: Numbers,
        command: &Command,
        copy: Option<KeptCommand>,
        answer: &Outcome,
        outcome: Option<KeptOutcome>,
    ) -> Witness
        requires page { IsPage self.old }
        requires room { HasRoom self.old }
        requires few { length (entries_on self.old) + 1 < 2 ^ 64 }
        requires copy { copy ≡ kept_by self.old.journal command.now }
        requires outcome { outcome ≡ kept_by self.old.journal answer.now }
        ensures page { IsPage self.new }
        ensures entries { entries_on self.new
            ≡ entries_on self.old ++ entry_from numbers command.now answer.now ∷ [] }
        ensures journal { self.new.journal ≡ self.old.journal }
        ensures entry { result ≡ entry_from numbers command.now answer.now }
    {
        let witness = Witness::of(numbers, command, answer);
        self.noted = self.noted.and(&witness, &numbers);
        keep(
            &mut self.kept,
            self.used,
            self.journal,
            numbers,
            command,
            copy,
            answer,
            outcome,
        );
        self.used += 1;
        witness
    }

    /// Begins a new page in the same memory. Entries of the last page keep their memory until new
    /// ones replace them, one a call.
    pub(crate) fn clear(&mut self)
        requires { IsPage self.old }
        ensures page { IsPage self.new }
        ensures entries { entries_on self.new ≡ [] }
        ensures journal { self.new.journal ≡ self.old.journal }
        ensures room { 0 < length (entries_on self.old) → HasRoom self.new }
    {
        self.noted = Log::new();
        self.used = 0;
    }

    /// Returns how many entries there are.
    pub(crate) fn len(&self) -> usize
        requires { IsPage self.now }
        ensures { result ≡ length (entries_on self.now) }
    {
        self.used
    }

    /// Returns the entries, in order. Fails exactly if the journal is off.
    pub(crate) fn entries(&self) -> Result<&[CallEntry], Unread>
        requires { IsPage self.now }
        ensures entries { IfOk result (λ entries. entries.now ≡ entries_on self.now) }
        ensures kept { IfOk result (λ _. self.now.journal ≡ On) }
        ensures off { IfErr result (λ _. self.now.journal ≡ IsOff) }
    {
        match self.journal {
            Journal::On => Ok(&self.kept[..self.used]),
            Journal::Off => Err(Unread::Off),
        }
    }
}
