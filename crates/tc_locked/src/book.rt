//! A user's book: a cache, the opening of its page, and the calls since.
ghost use Rattle.std.specs.Prelude.{◌≡◌, ◌≢◌, ℕ, ◌+◌, ◌-◌, ◌^◌, ◌<◌, ◌≤◌, ◌++◌, ◌∷◌, [], length, IfOk, OnOk, IfErr, OnErr, slice_get};
ghost use Rattle.std.specs.Prelude.{slice_index, slice_set, Some, None, IfSome, IfNone};
ghost use Rattle.tc_plain.specs.declared.shared.journal.Journal.TheVariants.{Off as IsOff};
ghost use Rattle.tc_plain.specs.Keeping.{kept_by, IsActed};
ghost use Rattle.tc_locked.specs.declared.call_entry.CallEntry.{CallEntry};
ghost use Rattle.tc_locked.specs.declared.unread.Unread.TheVariants.{Off};
ghost use Rattle.tc_locked.specs.Pages.{entries_on, IsPage, HasRoom};
ghost use Rattle.tc_fresh.specs.Beginning.{IsEmptyCache};
ghost use Rattle.tc_plain.specs.Doing.{act};
ghost use Rattle.tc_locked.specs.Books.{entry_of, after_call, slip_of, after_maintain, page_turned, paged, fresh_book, IsBookFault, IsNumberAt};
ghost use Rattle.tc_locked.specs.Closing.{HasLegalPage};
ghost use Rattle.tc_locked.specs.Entered.{entered};

use crate::call_entry::{CallEntry, Numbers, Slip};
use crate::call_fault::CallFault;
use crate::called::Called;
use crate::kept_command::KeptCommand;
use crate::page::Page;
use crate::unread::Unread;
use crate::witness::Witness;
use std::alloc::Global;
use std::marker::Model;
use std::mem;
use std::snapshot::Snapshot;
use tc_grammar::Command;
use tc_item::{Moment, NoMemory};
use tc_plain::{Acted, Cache, Journal, Plain, Progress};

/// The calls of a book.
#[derive(Drop)]
struct Register {
    /// The entries since the page began.
    page: Page,
    /// How many pages were turned.
    turns: u64,
    /// Number of calls over all pages, which is also the number of the latest entry.
    number: u64,
    /// Number of calls of each seat, by seat number.
    counts: Vec<u64>,
}

/// A cache, the state that it had when its page began, and the calls since then. Contracts see it
/// as a `BookState`, which is always legal (`IsBook`).
#[derive(Drop)]
pub struct Book<C: Cache> {
    cache: C,
    /// The cache when the page began, in proofs alone.
    began: Snapshot<C>,
    /// That state as lists, if the journal is on.
    lists: Option<Plain>,
    moment: Moment,
    register: Register,
}

impl<C: Cache> Model for Book<C> {
    ghost use Rattle.std.specs.Prelude.{◌≡◌};
    ghost use Rattle.tc_plain.specs.Keeping.{kept_by};
    ghost use Rattle.tc_locked.specs.Books.{BookState, IsBook};
    ghost use Rattle.tc_locked.specs.Pages.{entries_on, IsPage};

    ghost Value = { BookState };

    ghost view = { λ b. record {
      opening = C.settled b.began.value;
      entries = entries_on b.register.page;
      settled = C.settled b.cache;
      moment = b.moment;
      turns = b.register.turns;
      number = b.register.number;
      counts = b.register.counts.items;
      keeps = b.register.page.journal;
    } };

    ghost invariant = { λ b. IsBook (record {
      opening = C.settled b.began.value;
      entries = entries_on b.register.page;
      settled = C.settled b.cache;
      moment = b.moment;
      turns = b.register.turns;
      number = b.register.number;
      counts = b.register.counts.items;
      keeps = b.register.page.journal;
    }) × IsPage b.register.page
        × (b.lists ≡ kept_by b.register.page.journal (C.settled b.began.value)) };
}

/// The seat that calls, the moment and the connection.
#[derive(Clone, Copy)]
struct Caller {
    seat_no: usize,
    moment: Moment,
    conn: u32,
}

impl Register {
    /// Counts an entry of a seat. Returns the entry's number in the book and its number in the
    /// seat, both from 1.
    fn count_entry(&mut self, seat_no: usize) -> (u64, u64)
        requires seat { seat_no < length self.old.counts.items }
        requires number { self.old.number + 1 < 2 ^ 64 }
        requires tally { slice_index self.old.counts.items seat_no + 1 < 2 ^ 64 }
        ensures number { (self.new.number ≡ self.old.number + 1) × (result.0 ≡ self.old.number + 1) }
        ensures counts { self.new.counts.items ≡ slice_set self.old.counts.items seat_no
            (slice_index self.old.counts.items seat_no + 1) }
        ensures tally { result.1 ≡ slice_index self.old.counts.items seat_no + 1 }
        ensures page { self.new.page ≡ self.old.page }
        ensures turns { self.new.turns ≡ self.old.turns }
    {
        let tally = self.counts[seat_no] + 1;
        self.counts[seat_no] = tally;
        self.number += 1;
        (self.number, tally)
    }

    /// Enters a command and its outcome on the page. Returns the caller's slip and the entry.
    fn enter(
        &mut self,
        by: Caller,
        command: &Command,
        copy: Option<KeptCommand>,
        acted: Acted,
    ) -> (Slip, Witness)
        requires seat { by.seat_no < length self.old.counts.items }
        requires number { self.old.number + 1 < 2 ^ 64 }
        requires tally { slice_index self.old.counts.items by.seat_no + 1 < 2 ^ 64 }
        requires page { IsPage self.old.page }
        requires room { HasRoom self.old.page }
        requires few { length (entries_on self.old.page) + 1 < 2 ^ 64 }
        requires copy { copy ≡ kept_by self.old.page.journal command.now }
        requires kept { acted.kept ≡ kept_by self.old.page.journal acted.answer }
        ensures page { IsPage self.new.page }
        ensures entries { entries_on self.new.page ≡ entries_on self.old.page
            ++ entered self.old.counts.items self.old.number by command.now acted.answer ∷ [] }
        ensures journal { self.new.page.journal ≡ self.old.page.journal }
        ensures turns { self.new.turns ≡ self.old.turns }
        ensures number { self.new.number ≡ self.old.number + 1 }
        ensures counts { self.new.counts.items ≡ slice_set self.old.counts.items by.seat_no
            (slice_index self.old.counts.items by.seat_no + 1) }
        ensures slip { result.0 ≡ record {
          page = self.old.turns;
          number = self.old.number + 1;
          tally = slice_index self.old.counts.items by.seat_no + 1;
          moment = by.moment;
          outcome = acted.answer;
        } }
        ensures entry { result.1
            ≡ entered self.old.counts.items self.old.number by command.now acted.answer }
    {
        let (number, tally) = self.count_entry(by.seat_no);
        let numbers = Numbers {
            seat: by.seat_no,
            tally,
            number,
            moment: by.moment,
            conn: by.conn,
        };
        let Acted { answer, kept } = acted;
        let entry = self.page.add(numbers, command, copy, &answer, kept);
        let slip = Slip {
            page: self.turns,
            number,
            tally,
            moment: by.moment,
            outcome: answer,
        };
        (slip, entry)
    }
}

/// Does what can fail before the cache runs the command: checks that a number is left, and reserves
/// room for the entry.
fn make_ready(page: &mut Page, number: u64) -> Result<(), CallFault>
    requires { IsPage page.old }
    ensures page { IsPage page.new }
    ensures entries { entries_on page.new ≡ entries_on page.old }
    ensures journal { page.new.journal ≡ page.old.journal }
    ensures room { OnOk result (HasRoom page.new) }
    ensures number { OnOk result (number + 1 < 2 ^ 64) }
    ensures fault { IfErr result (IsBookFault number) }
{
    if number == u64::MAX {
        return Err(CallFault::Worn);
    }
    page.reserve()?;
    Ok(())
}

/// Freezes the cache into lists if the journal is on. Fails if memory is refused.
fn freeze_to_keep<C: Cache>(
    alloc: Global,
    cache: &C,
    journal: Journal,
) -> Result<Option<Plain>, NoMemory>
    ensures { IfOk result (λ lists. lists ≡ kept_by journal (C.settled cache.now)) }
{
    match journal {
        Journal::On => Ok(Some(cache.freeze(alloc)?)),
        Journal::Off => Ok(None),
    }
}

/// Does what can fail of a page turn: it checks that a number is left, and if the journal is on,
/// freezes the cache for the next page.
fn open_next<C: Cache>(
    alloc: Global,
    cache: &C,
    number: u64,
    journal: Journal,
) -> Result<Option<Plain>, CallFault>
    ensures lists { IfOk result (λ lists. lists ≡ kept_by journal (C.settled cache.now)) }
    ensures number { OnOk result (number + 1 < 2 ^ 64) }
    ensures fault { IfErr result (IsBookFault number) }
{
    if number == u64::MAX {
        return Err(CallFault::Worn);
    }
    Ok(freeze_to_keep(alloc, cache, journal)?)
}

/// Copies the kept lists. `Unread::Off` if there are none, `Unread::NoMemory` if memory is refused.
fn copy_kept(alloc: Global, lists: &Option<Plain>) -> Result<Plain, Unread>
    ensures kept { IfOk result (λ plain. lists.now ≡ Some plain) }
    ensures off { IfErr result (λ fault. fault ≡ Off → lists.now ≡ None) }
{
    match lists {
        Some(lists) => Ok(lists.copy(alloc)?),
        None => Err(Unread::Off),
    }
}

impl<C: Cache> Book<C> {
    /// Opens a book of an empty cache, with a count for each of `seats` seats. If the journal is
    /// on, it freezes the cache as the first page's opening, and the book keeps its entries.
    pub fn open(
        alloc: Global,
        cache: C,
        seats: usize,
        journal: Journal,
    ) -> Result<Book<C>, NoMemory>
        requires empty { IsEmptyCache (C.settled cache) }
        ensures { IfOk result (λ book. book ≡ fresh_book (C.settled cache) seats journal) }
    {
        let counts = vec![in alloc; 0u64; seats]?;
        let lists = freeze_to_keep(alloc, &cache, journal)?;
        let began = Snapshot::of(&cache);
        Ok(Book {
            cache,
            began,
            lists,
            moment: Moment::FIRST,
            register: Register {
                page: Page::new(alloc, journal),
                turns: 0,
                number: 0,
                counts,
            },
        })
    }

    /// Runs one command for a seat, at the later of `now` and the book's moment. If the journal is
    /// on, the entry keeps `copy`. A refusal changes nothing.
    pub fn call(
        &mut self,
        alloc: Global,
        seat_no: usize,
        now: Moment,
        conn: u32,
        command: &Command,
        copy: Option<KeptCommand>,
    ) -> Result<Called, CallFault>
        requires seat { seat_no < length self.old.counts }
        requires copy { copy ≡ kept_by self.old.keeps command.now }
        ensures slip { IfOk result (λ called. called.slip ≡ slip_of self.old
            (entry_of self.old seat_no now conn command.now)) }
        ensures entry { IfOk result (λ called. called.entry
            ≡ entry_of self.old seat_no now conn command.now) }
        ensures entered { OnOk result (self.new
            ≡ after_call self.old (entry_of self.old seat_no now conn command.now)) }
        ensures fault { IfErr result (IsBookFault self.old.number) }
        ensures unchanged_on_err { OnErr result (self.new ≡ self.old) }
    {
        let moment = self.moment.later(now);
        let by = Caller {
            seat_no,
            moment,
            conn,
        };
        make_ready(&mut self.register.page, self.register.number)?;
        let acted = self
            .cache
            .act(alloc, moment, command, self.register.page.journal)?;
        let (slip, entry) = self.register.enter(by, command, copy, acted);
        self.moment = moment;
        Ok(Called { slip, entry })
    }

    /// Does at most `limit` pieces of the cache's deferred work (`Cache::maintain`).
    pub fn maintain(&mut self, now: Moment, limit: u32) -> Progress
        ensures { self.new ≡ after_maintain self.old now }
    {
        self.moment = self.moment.later(now);
        self.cache.maintain(now, limit)
    }

    /// Runs a `call` that begins a new page, whose opening is the cache's state before the call.
    ///
    /// If the journal is on, it freezes the cache before it runs the command. It turns the page
    /// once the command has succeeded, so a refusal of either changes nothing. Entries of the last
    /// page keep their memory until new ones replace them, one a call. The last page's frozen
    /// opening goes to `left`.
    fn call_turning(
        &mut self,
        alloc: Global,
        left: &mut Option<Plain>,
        seat_no: usize,
        now: Moment,
        conn: u32,
        command: &Command,
        copy: Option<KeptCommand>,
    ) -> Result<Called, CallFault>
        requires seat { seat_no < length self.old.counts }
        requires copy { copy ≡ kept_by self.old.keeps command.now }
        requires some { 0 < length self.old.entries }
        ensures slip { IfOk result (λ called. called.slip
            ≡ slip_of (page_turned self.old) (entry_of self.old seat_no now conn command.now)) }
        ensures entry { IfOk result (λ called. called.entry
            ≡ entry_of self.old seat_no now conn command.now) }
        ensures entered { OnOk result (self.new ≡ after_call (page_turned self.old)
            (entry_of self.old seat_no now conn command.now)) }
        ensures fault { IfErr result (IsBookFault self.old.number) }
        ensures unchanged_on_err { OnErr result (self.new ≡ self.old) }
    {
        let moment = self.moment.later(now);
        let by = Caller {
            seat_no,
            moment,
            conn,
        };
        let journal = self.register.page.journal;
        let lists = open_next(alloc, &self.cache, self.register.number, journal)?;
        let began = Snapshot::of(&self.cache);
        let acted = self.cache.act(alloc, moment, command, journal)?;
        self.began = began;
        *left = mem::replace(&mut self.lists, lists);
        self.register.turns += 1;
        self.register.page.clear();
        let (slip, entry) = self.register.enter(by, command, copy, acted);
        self.moment = moment;
        Ok(Called { slip, entry })
    }

    /// Runs a `call`. If the page has `journal` entries it turns the page, and the frozen opening
    /// of that page goes to `left`. A refusal changes nothing.
    pub fn call_paged(
        &mut self,
        alloc: Global,
        left: &mut Option<Plain>,
        journal: usize,
        seat_no: usize,
        now: Moment,
        conn: u32,
        command: &Command,
        copy: Option<KeptCommand>,
    ) -> Result<Called, CallFault>
        requires journal { 0 < journal }
        requires seat { seat_no < length self.old.counts }
        requires copy { copy ≡ kept_by self.old.keeps command.now }
        ensures slip { IfOk result (λ called. called.slip
            ≡ slip_of (paged journal self.old) (entry_of self.old seat_no now conn command.now)) }
        ensures entry { IfOk result (λ called. called.entry
            ≡ entry_of self.old seat_no now conn command.now) }
        ensures entered { OnOk result (self.new ≡ after_call (paged journal self.old)
            (entry_of self.old seat_no now conn command.now)) }
        ensures fault { IfErr result (IsBookFault self.old.number) }
        ensures unchanged_on_err { OnErr result (self.new ≡ self.old) }
    {
        if self.register.page.len() < journal {
            self.call(alloc, seat_no, now, conn, command, copy)
        } else {
            self.call_turning(alloc, left, seat_no, now, conn, command, copy)
        }
    }

    /// Prefetches what look-ups of keys with these hashes will read (`Cache::read_ahead`).
    pub fn read_ahead(&self, hashes: &[u64]) {
        self.cache.read_ahead(hashes);
    }

    /// Returns how many entries a seat made, over all pages.
    pub fn count(&self, seat_no: usize) -> u64
        requires { seat_no < length self.now.counts }
        ensures { result ≡ slice_index self.now.counts seat_no }
    {
        self.register.counts[seat_no]
    }

    /// Returns the entry of this number if it is on this page. Fails only if the journal is off.
    pub fn entry(&self, number: u64) -> Result<Option<&CallEntry>, Unread>
        ensures found { IfOk result (λ found. (j : ℕ) (e : CallEntry)
            → slice_get self.now.entries j ≡ Some e
            → IsNumberAt number j self.now
            → IfSome found (λ x. x.now ≡ e) × IfNone found ⊥) }
        ensures off { IfErr result (λ fault. self.now.keeps ≡ IsOff) }
    {
        let entries = self.register.page.entries()?;
        let before = self.register.number - entries.len() as u64;
        if number <= before || number - before > entries.len() as u64 {
            return Ok(None);
        }
        Ok(Some(&entries[(number - before - 1) as usize]))
    }

    /// Returns how many bytes the entries of the page keep, with the data that they share with the
    /// cache; 0 if the journal is off.
    pub fn journal_bytes(&self) -> u64 {
        let mut bytes: u64 = 0;
        if let Ok(entries) = self.register.page.entries() {
            for entry in entries {
                bytes = bytes.saturating_add(entry.bytes());
            }
        }
        bytes
    }

    /// Returns how many pages were turned.
    pub fn turns(&self) -> u64
        ensures { result ≡ self.now.turns }
    {
        self.register.turns
    }

    /// Returns the page's opening as lists. From it the commands of the page's entries give their
    /// outcomes. `Unread::Off` if the journal is off, `Unread::NoMemory` if memory is refused.
    pub fn opening(&self, alloc: Global) -> Result<Plain, Unread>
        ensures opening { IfOk result (λ plain. plain ≡ self.now.opening) }
        ensures off { IfErr result (λ fault. fault ≡ Off → self.now.keeps ≡ IsOff) }
        ensures legal { HasLegalPage self.now }
    {
        copy_kept(alloc, &self.lists)
    }

    /// Returns the entries of the page, in order. Fails only if the journal is off.
    pub fn page(&self) -> Result<&[CallEntry], Unread>
        ensures entries { IfOk result (λ entries. entries.now ≡ self.now.entries) }
        ensures off { IfErr result (λ _. self.now.keeps ≡ IsOff) }
        ensures legal { HasLegalPage self.now }
    {
        self.register.page.entries()
    }
}
