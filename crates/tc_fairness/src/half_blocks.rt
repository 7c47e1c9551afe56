//! How many bytes of incomplete requests are kept for the users of a worker.
//!
//! A user here is all its connections; those that have not logged in are one user. The unread bytes
//! of its connections are summed. A connection with more than 16,384 unread bytes is read no
//! further while the user's others have more than 16,777,216. One connection, the lead, is exempt,
//! so that one request after another becomes complete. A lead from which nothing came for over 5
//! seconds gives way to another connection that waits, and must close.
ghost use Rattle.std.specs.Prelude.{◌≡◌, ◌≢◌, ◌⊎◌, ◌<◌, ◌≤◌, ◌+◌, ◌-◌, ◌^◌, ℕ, min, MatchOption};
ghost use Rattle.tc_fairness.specs.HalfBlocks.{least_part, most_parts, lead_seconds, lead_but, lead_heard};
ghost use Rattle.tc_fairness.specs.HalfBlocks.{parts_of, with_part, without_part, without_lead, with_heard};

use std::alloc::Global;
use tc_item::Moment;

/// A connection with at most this many unread bytes is always read.
const LEAST: usize = 16_384;

/// How many bytes of a user's other connections may be unread before one with more than `LEAST` is
/// read no further.
const MOST: usize = 16_777_216;

/// For how many seconds a connection leads without sending anything, while others of its user wait.
const SECONDS: u64 = 5;

/// How many bytes of a connection are unread, its key, and its user.
#[derive(Clone, Copy)]
pub struct Part {
    pub user: usize,
    pub key: usize,
    pub bytes: usize,
}

/// The one connection of a user that is read while others wait, and when bytes last came from it or
/// it began to lead.
#[derive(Clone, Copy)]
struct Lead {
    key: usize,
    heard: Moment,
}

/// How many bytes of a user's connections are unread, and which connection leads.
#[derive(Clone, Copy)]
struct Parts {
    bytes: usize,
    lead: Option<Lead>,
}

/// Whether a connection is read.
#[derive(Clone, Copy, PartialEq, Eq)]
pub enum Reads {
    Yes,
    /// Yes, in place of the one under this key, from which nothing comes.
    For(usize),
    No,
}

impl Parts {
    /// Makes the sum of a user without unread bytes.
    fn none() -> Parts {
        Parts {
            bytes: 0,
            lead: None,
        }
    }

    /// Adds unread bytes.
    fn add(&mut self, bytes: usize)
        ensures { self.new ≡ record self.old {
          bytes = min (self.old.bytes + bytes) (2 ^ 64 - 1);
        } }
    {
        self.bytes = self.bytes.saturating_add(bytes);
    }

    /// Removes unread bytes.
    fn take_off(&mut self, bytes: usize)
        ensures { self.new ≡ record self.old { bytes = self.old.bytes - bytes } }
    {
        self.bytes = self.bytes.saturating_sub(bytes);
    }

    /// Ends the lead of a key's connection, if it leads.
    fn end_lead(&mut self, key: usize)
        ensures { self.new ≡ record self.old { lead = lead_but key self.old.lead } }
    {
        match self.lead {
            Some(lead) if lead.key == key => self.lead = None,
            _ => {}
        }
    }

    /// Notes that bytes of a key's connection came at this moment.
    fn hear(&mut self, key: usize, now: Moment)
        ensures { self.new ≡ record self.old { lead = lead_heard key now self.old.lead } }
    {
        match self.lead {
            Some(lead) if lead.key == key => self.lead = Some(Lead { key, heard: now }),
            _ => {}
        }
    }

    /// Returns whether a connection is read at this moment. It may begin to lead.
    fn reads(&mut self, part: Part, now: Moment) -> Reads
        ensures least { part.bytes ≤ least_part → result ≡ Reads.Yes }
        ensures few { self.old.bytes - part.bytes ≤ most_parts → result ≡ Reads.Yes }
        ensures bound { result ≢ Reads.No → (part.bytes ≤ least_part)
            ⊎ ((self.old.bytes - part.bytes ≤ most_parts)
            ⊎ MatchOption self.new.lead ⊥ (λ lead. lead.key ≡ part.key)) }
        ensures waits { result ≡ Reads.No
            → MatchOption self.new.lead ⊥ (λ lead. lead.key ≢ part.key) }
        ensures gives_way { (other : ℕ) → result ≡ Reads.For other
            → MatchOption self.old.lead ⊥ (λ lead. (lead.key ≡ other)
            × (lead.heard + lead_seconds < now)) }
        ensures bytes { self.new.bytes ≡ self.old.bytes }
    {
        if part.bytes <= LEAST || self.bytes.saturating_sub(part.bytes) <= MOST {
            return Reads::Yes;
        }
        let reads = match self.lead {
            None => Reads::Yes,
            Some(lead) if lead.key == part.key => return Reads::Yes,
            Some(lead) if now.seconds() <= lead.heard.seconds() + SECONDS => return Reads::No,
            Some(lead) => Reads::For(lead.key),
        };
        self.lead = Some(Lead {
            key: part.key,
            heard: now,
        });
        reads
    }
}

/// The unread bytes of a worker's users. A user without a sum, since memory was refused, is always
/// read.
#[derive(Drop)]
pub struct HalfBlocks {
    /// By the users' numbers; the first is that of all connections without a login.
    users: Vec<Parts>,
}

impl HalfBlocks {
    /// Makes the sums of a worker with no connection.
    pub fn new(alloc: Global) -> HalfBlocks {
        HalfBlocks {
            users: Vec::new(alloc),
        }
    }

    /// Opens sums for `users` users, and for those without a login. If memory is refused, it tries
    /// again in the next turn.
    pub fn open(&mut self, users: usize) {
        let users = users.saturating_add(1);
        if self.users.len() < users {
            let _ = self.users.resize(users, Parts::none());
        }
    }

    /// Returns whether a connection is read at this moment. It may begin to lead.
    pub fn reads(&mut self, part: Part, now: Moment) -> Reads
        ensures least { part.bytes ≤ least_part → result ≡ Reads.Yes }
        ensures few { (parts_of self.old.users.items part.user).bytes - part.bytes ≤ most_parts
            → result ≡ Reads.Yes }
        ensures bound { result ≢ Reads.No → (part.bytes ≤ least_part)
            ⊎ (((parts_of self.old.users.items part.user).bytes - part.bytes ≤ most_parts)
            ⊎ MatchOption (parts_of self.new.users.items part.user).lead ⊥
            (λ lead. lead.key ≡ part.key)) }
        ensures waits { result ≡ Reads.No
            → MatchOption (parts_of self.new.users.items part.user).lead ⊥
            (λ lead. lead.key ≢ part.key) }
        ensures gives_way { (other : ℕ) → result ≡ Reads.For other
            → MatchOption (parts_of self.old.users.items part.user).lead ⊥
            (λ lead. (lead.key ≡ other) × (lead.heard + lead_seconds < now)) }
    {
        match self.users.get_mut(part.user) {
            Some(parts) => parts.reads(part, now),
            None => Reads::Yes,
        }
    }

    /// Enters a connection.
    pub fn enter(&mut self, part: Part) {
        self.open(part.user);
        self.add(part);
    }

    /// Adds unread bytes.
    fn add(&mut self, part: Part)
        ensures { self.new.users.items ≡ with_part part self.old.users.items }
    {
        if let Some(parts) = self.users.get_mut(part.user) {
            parts.add(part.bytes);
        }
    }

    /// Removes unread bytes.
    fn take_off(&mut self, part: Part)
        ensures { self.new.users.items ≡ without_part part self.old.users.items }
    {
        if let Some(parts) = self.users.get_mut(part.user) {
            parts.take_off(part.bytes);
        }
    }

    /// Ends the lead of a connection, if it leads.
    fn end_lead(&mut self, part: Part)
        ensures { self.new.users.items ≡ without_lead part self.old.users.items }
    {
        if let Some(parts) = self.users.get_mut(part.user) {
            parts.end_lead(part.key);
        }
    }

    /// Notes that bytes of a connection came at this moment.
    fn hear(&mut self, part: Part, now: Moment)
        ensures { self.new.users.items ≡ with_heard part now self.old.users.items }
    {
        if let Some(parts) = self.users.get_mut(part.user) {
            parts.hear(part.key, now);
        }
    }

    /// Removes a connection.
    pub fn leave(&mut self, part: Part)
        ensures { self.new.users.items
            ≡ without_lead part (without_part part self.old.users.items) }
    {
        self.take_off(part);
        self.end_lead(part);
    }

    /// Replaces what is unread of a connection. One with few bytes, or with another user, leads no
    /// more.
    pub fn note(&mut self, before: Part, after: Part, now: Moment)
        ensures came { least_part < after.bytes → after.user ≡ before.user
            → before.bytes < after.bytes → self.new.users.items
            ≡ with_heard after now (with_part after (without_part before self.old.users.items)) }
        ensures stayed { least_part < after.bytes → after.user ≡ before.user
            → after.bytes ≤ before.bytes → self.new.users.items
            ≡ with_part after (without_part before self.old.users.items) }
        ensures done { after.bytes ≤ least_part → self.new.users.items
            ≡ without_lead before (with_part after (without_part before self.old.users.items)) }
    {
        self.take_off(before);
        self.add(after);
        if after.bytes <= LEAST || after.user != before.user {
            self.end_lead(before);
        } else if after.bytes > before.bytes {
            self.hear(after, now);
        }
    }
}
