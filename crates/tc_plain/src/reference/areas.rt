//! The three areas, as lists.
ghost use Rattle.std.specs.Prelude.{◌≡◌, ℕ, ◌<◌, ◌≤◌, ◌+◌, ◌^◌, is_some, cond, suc, Some, None, MatchOption, IfOk, OnOk, length};
ghost use Rattle.std.specs.Prelude.{sum_by};
ghost use Rattle.tc_model.specs.Areas.{Limits, total, is_in, demoted};
ghost use Rattle.tc_plain.specs.Entries.{weight, lives, has_key};
ghost use Rattle.tc_plain.specs.EvictionState.{no_entries, entries_of, filtered, held};
ghost use Rattle.tc_plain.specs.Placing.{without_key};
ghost use Rattle.tc_plain.specs.AreaLists.{areas_of, HasRoom, is_from_window, put_back};

use crate::Entry;
use crate::reference::lists::{
    copy_all, count, expire, pop_over, put_first, take_first, take_out, weigh_all,
};
use std::alloc::Global;
use tc_item::{Moment, NoMemory};

/// The entries of one user's cache: the window, and main, which is probation and protected. Each
/// list has its most recent entry first.
#[derive(Drop)]
pub struct Areas {
    pub window: Vec<Entry>,
    pub probation: Vec<Entry>,
    pub protected: Vec<Entry>,
}

/// Where an entry was before it was taken out.
#[derive(Clone, Copy, PartialEq, Eq)]
pub(crate) enum Origin {
    Window,
    Main,
}

impl Areas {
    /// Three empty lists.
    pub(crate) fn new(alloc: Global) -> Areas
        ensures { areas_of result ≡ no_entries }
    {
        Areas {
            window: Vec::new(alloc),
            probation: Vec::new(alloc),
            protected: Vec::new(alloc),
        }
    }

    /// Returns how many entries there are in all areas.
    pub(crate) fn count(&self) -> usize
        requires { total weight (areas_of self.now) < 2 ^ 63 }
        ensures { result ≡ length (entries_of (areas_of self.now)) }
    {
        count(&self.window) + count(&self.probation) + count(&self.protected)
    }

    /// Returns what all entries weigh together, in bytes.
    pub(crate) fn weigh(&self) -> u64
        requires { total weight (areas_of self.now) < 2 ^ 63 }
        ensures { result ≡ sum_by weight (entries_of (areas_of self.now)) }
    {
        weigh_all(&self.window) + weigh_all(&self.probation) + weigh_all(&self.protected)
    }

    /// Copies all entries. The copies share their data. Fails if memory is refused.
    pub(crate) fn copy(&self, alloc: Global) -> Result<Areas, NoMemory>
        ensures { IfOk result (λ areas. areas_of areas ≡ areas_of self.now) }
    {
        Ok(Areas {
            window: copy_all(alloc, &self.window)?,
            probation: copy_all(alloc, &self.probation)?,
            protected: copy_all(alloc, &self.protected)?,
        })
    }

    /// Makes room in each list for all entries and one more. A refusal leaves the entries
    /// unchanged.
    pub fn make_room(&mut self) -> Result<(), NoMemory>
        requires { total weight (areas_of self.old) < 2 ^ 63 }
        ensures room { OnOk result (HasRoom 1 self.new) }
        ensures areas { areas_of self.new ≡ areas_of self.old }
    {
        let count = count(&self.window) + count(&self.probation) + count(&self.protected);
        self.window.reserve(count + 1)?;
        self.probation.reserve(count + 1)?;
        self.protected.reserve(count + 1)?;
        Ok(())
    }

    /// Removes all entries.
    pub(crate) fn clear(&mut self)
        ensures areas { areas_of self.new ≡ no_entries }
        ensures room { (spare : ℕ) → HasRoom spare self.old → HasRoom spare self.new }
    {
        self.window.clear();
        self.probation.clear();
        self.protected.clear();
    }

    /// Removes the entries that are not alive at the moment.
    pub(crate) fn expire(&mut self, moment: Moment)
        ensures areas { areas_of self.new ≡ filtered (lives moment) (areas_of self.old) }
        ensures room { (spare : ℕ) → HasRoom spare self.old → HasRoom spare self.new }
    {
        expire(&mut self.window, moment);
        expire(&mut self.probation, moment);
        expire(&mut self.protected, moment);
    }

    /// Removes what a key holds, and returns it with the area that it was in.
    pub(crate) fn take(&mut self, key: &[u8]) -> Option<(Origin, Entry)>
        ensures taken { MatchOption result (held key.now (areas_of self.old) ≡ None)
            (λ r. (held key.now (areas_of self.old) ≡ Some r.1)
            × (is_from_window r.0 ≡ is_in (has_key key.now) self.old.window.items)) }
        ensures areas { areas_of self.new ≡ without_key key.now (areas_of self.old) }
        ensures room { (spare : ℕ) → HasRoom spare self.old
            → HasRoom (cond (is_some result) (suc spare) spare) self.new }
    {
        if let Some(entry) = take_first(&mut self.window, key) {
            take_out(&mut self.probation, key);
            take_out(&mut self.protected, key);
            return Some((Origin::Window, entry));
        }
        if let Some(entry) = take_first(&mut self.probation, key) {
            take_out(&mut self.protected, key);
            return Some((Origin::Main, entry));
        }
        let entry = take_first(&mut self.protected, key)?;
        Some((Origin::Main, entry))
    }

    /// Puts an entry at the front of the window if it was there before, otherwise of protected.
    pub(crate) fn put_back(&mut self, origin: Origin, entry: Entry)
        requires { HasRoom 1 self.old }
        ensures areas { areas_of self.new
            ≡ put_back (is_from_window origin) entry (areas_of self.old) }
        ensures room { (spare : ℕ) → HasRoom (suc spare) self.old → HasRoom spare self.new }
    {
        match origin {
            Origin::Window => put_first(&mut self.window, entry),
            Origin::Main => put_first(&mut self.protected, entry),
        }
    }

    /// Brings protected within `most` bytes: while it weighs more, its last entry goes to the front
    /// of probation.
    pub(crate) fn hold_protected(&mut self, most: u64)
        requires weight { total weight (areas_of self.old) < 2 ^ 64 }
        requires room { HasRoom 0 self.old }
        ensures areas { (limits : Limits) → limits.protected ≡ most
            → areas_of self.new ≡ demoted weight limits (areas_of self.old) }
        ensures room { (spare : ℕ) → HasRoom spare self.old → HasRoom spare self.new }
    {
        while let Some(last) = pop_over(&mut self.protected, most) {
            put_first(&mut self.probation, last);
        }
    }
}
