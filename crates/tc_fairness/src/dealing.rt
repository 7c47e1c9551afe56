//! How turns are dealt out among the users of a worker.
//!
//! A user here is all its connections; those that have not logged in are one user. Each turn pays
//! each user a share of work, and a user owes what it did beyond its shares. While several users'
//! connections have something to do, those of a user that owes a share or more are left out of a
//! turn. A user with whom nobody waits owes nothing when its turn begins. Its turn ends after four
//! shares, so that a user who arrives is soon seen.
//!
//! The first time that a user is served in a second of the clock, its cache is maintained first. If
//! more deferred work is left after that, the user owes the work done, and its connections are left
//! out of the turn.
//!
//! What waits to be sent to a user's connections is summed. A connection is full if more waits for
//! it than the user's others leave of 8,388,608 bytes, but at least 16,384 and at most 1,048,576. A
//! full one reads nothing and does no request.
ghost use Rattle.std.specs.Prelude.{◌≡◌, ◌≢◌, ◌<◌, ◌↔◌, ◌+◌, ◌-◌, ◌^◌, ◌≤◌, min, IsTrue, IfSome, slice_set};
ghost use Rattle.tc_fairness.specs.Dealing.{idle, paid_at, charged, after_progress, account_of};
ghost use Rattle.tc_fairness.specs.Dealing.{least_out, most_out, with_backlog, without_backlog};

use std::alloc::Global;
use tc_item::Moment;
use tc_plain::Progress;

/// What a turn pays each user, in quarters of a microsecond: half a millisecond.
pub const SHARE: u64 = 2_000;

/// The most work in a turn of one user alone, in quarters of a microsecond.
const ALONE: u64 = 8_000;

/// How many pieces of deferred work are done at a time before a user is served in a new second.
pub const PIECES: u32 = 2_048;

/// The cost of these, in quarters of a microsecond: a third of a microsecond each.
const PIECES_COST: u64 = 2_730;

/// A connection to which more bytes than this wait reads nothing and does no request.
const MOST_OUT: usize = 1_048_576;

/// A connection to which at most this many bytes wait is never full.
pub const LEAST_OUT: usize = 16_384;

/// The bytes that a user's connections share for what waits to be sent. Each is full above what the
/// others leave of them, within `LEAST_OUT` and `MOST_OUT`.
const MOST_OF_USER: usize = 8_388_608;

/// How many bytes wait to be sent to a connection, and to which user it belongs.
#[derive(Clone, Copy)]
pub struct Backlog {
    pub user: usize,
    pub bytes: usize,
}

/// What a user owes, how far its cache is maintained, and what waits for it.
#[derive(Clone, Copy)]
struct Account {
    owed: u64,
    /// The last turn whose share was paid.
    paid: u64,
    /// The moment at which none of its cache's deferred work was left.
    kept_up: Moment,
    /// How many bytes wait to be sent to its connections.
    backlog: usize,
}

impl Account {
    /// Makes the account of a user who did nothing before this turn.
    fn new(turn: u64) -> Account
        ensures { result ≡ record idle { paid = turn } }
    {
        Account {
            owed: 0,
            paid: turn,
            kept_up: Moment::FIRST,
            backlog: 0,
        }
    }

    /// Clears what the user owes, as of this turn.
    fn forgive(&mut self, turn: u64)
        ensures { self.new ≡ record self.old { owed = 0; paid = turn } }
    {
        self.owed = 0;
        self.paid = turn;
    }

    /// Pays a share for each turn since the last paid one. Nothing is saved up.
    fn pay(&mut self, turn: u64)
        ensures { self.new ≡ paid_at turn self.old }
    {
        let shares = turn.saturating_sub(self.paid);
        self.owed = self.owed.saturating_sub(shares.saturating_mul(SHARE));
        self.paid = turn;
    }

    /// Adds to what the user owes.
    fn charge(&mut self, work: u64)
        ensures { self.new ≡ charged work self.old }
    {
        self.owed = self.owed.saturating_add(work);
    }

    /// Notes how far maintenance at a moment got. If more is left, the user owes what was done.
    fn note(&mut self, now: Moment, progress: Progress)
        ensures { self.new ≡ after_progress now progress self.old }
    {
        match progress {
            Progress::Done => self.kept_up = now,
            Progress::MoreLeft => self.charge(PIECES_COST),
        }
    }

    /// Adds bytes that wait.
    fn add(&mut self, bytes: usize)
        ensures { self.new ≡ record self.old {
          backlog = min (self.old.backlog + bytes) (2 ^ 64 - 1);
        } }
    {
        self.backlog = self.backlog.saturating_add(bytes);
    }

    /// Removes bytes that waited.
    fn take_off(&mut self, bytes: usize)
        ensures { self.new ≡ record self.old { backlog = self.old.backlog - bytes } }
    {
        self.backlog = self.backlog.saturating_sub(bytes);
    }

    /// Returns with how many waiting bytes a connection is not full yet, if `own` wait for it.
    fn most_out(&self, own: usize) -> usize
        ensures { result ≡ most_out self.now.backlog own }
    {
        let others = self.backlog.saturating_sub(own);
        MOST_OF_USER
            .saturating_sub(others)
            .max(LEAST_OUT)
            .min(MOST_OUT)
    }

    /// Whether the user owes less than `most`.
    fn is_below(&self, most: u64) -> bool
        ensures { IsTrue result ↔ (self.now.owed < most) }
    {
        self.owed < most
    }
}

/// The accounts of a worker's users. A user without one, since memory was refused, is never left
/// out.
#[derive(Drop)]
pub struct Dealing {
    /// By the users' numbers; the first is that of all connections without a login.
    accounts: Vec<Account>,
    /// How many turns began.
    turn: u64,
    /// A user who owes this much is left out of this turn.
    most: u64,
    ghost some: { 0 < most },
}

impl Dealing {
    /// Makes the accounts before the first turn.
    pub fn new(alloc: Global) -> Dealing {
        Dealing {
            accounts: Vec::new(alloc),
            turn: 0,
            most: SHARE,
        }
    }

    /// Returns the number of the turn that began last.
    pub fn turn(&self) -> u64 {
        self.turn
    }

    /// Begins a turn among `users` users. Only `sole` has something to do, if it is given.
    pub fn begin(&mut self, users: usize, sole: Option<usize>)
        ensures alone { IfSome sole (λ user. (account_of self.new.accounts.items user).owed ≡ 0) }
    {
        self.turn = self.turn.saturating_add(1);
        self.open(users);
        match sole {
            Some(user) => self.begin_alone(user),
            None => self.most = SHARE,
        }
    }

    /// Begins a turn of one user, who then owes nothing.
    fn begin_alone(&mut self, user: usize)
        ensures { (account_of self.new.accounts.items user).owed ≡ 0 }
    {
        self.most = ALONE;
        if let Some(account) = self.accounts.get_mut(user) {
            account.forgive(self.turn);
        }
    }

    /// Opens accounts for `users` users, and for those without a login. If memory is refused, it
    /// tries again in the next turn.
    fn open(&mut self, users: usize) {
        let accounts = users.saturating_add(1);
        if self.accounts.len() < accounts {
            let _ = self.accounts.resize(accounts, Account::new(self.turn));
        }
    }

    /// Pays a user its shares, and returns whether its connections are served in this turn.
    pub fn serves(&mut self, user: usize) -> bool
        ensures paid { self.new.accounts.items ≡ slice_set self.old.accounts.items user
            (paid_at self.old.turn (account_of self.old.accounts.items user)) }
        ensures left { IsTrue result
            ↔ ((account_of self.new.accounts.items user).owed < self.new.most) }
    {
        match self.accounts.get_mut(user) {
            Some(account) => {
                account.pay(self.turn);
                account.is_below(self.most)
            }
            None => true,
        }
    }

    /// Whether a user's cache may have deferred work left at this moment.
    pub fn is_behind(&self, user: usize, now: Moment) -> bool
        ensures { IsTrue result → (account_of self.now.accounts.items user).kept_up ≢ now }
    {
        match self.accounts.get(user) {
            Some(account) => account.kept_up != now,
            None => false,
        }
    }

    /// Notes how far maintenance of a user's cache got at this moment.
    pub fn note_progress(&mut self, user: usize, now: Moment, progress: Progress)
        ensures { self.new.accounts.items ≡ slice_set self.old.accounts.items user
            (after_progress now progress (account_of self.old.accounts.items user)) }
    {
        if let Some(account) = self.accounts.get_mut(user) {
            account.note(now, progress);
        }
    }

    /// Returns with how many bytes that wait to be sent this connection is not full yet.
    pub fn most_out(&self, backlog: Backlog) -> usize
        ensures most { result
            ≡ most_out (account_of self.now.accounts.items backlog.user).backlog backlog.bytes }
        ensures least { least_out ≤ result }
    {
        match self.accounts.get(backlog.user) {
            Some(account) => account.most_out(backlog.bytes),
            None => MOST_OUT,
        }
    }

    /// Enters a connection.
    pub fn enter(&mut self, backlog: Backlog) {
        self.open(backlog.user);
        self.add(backlog);
    }

    /// Adds bytes that wait.
    fn add(&mut self, backlog: Backlog)
        ensures { self.new.accounts.items ≡ with_backlog backlog self.old.accounts.items }
    {
        if let Some(account) = self.accounts.get_mut(backlog.user) {
            account.add(backlog.bytes);
        }
    }

    /// Removes a connection, and what waits for it.
    pub fn leave(&mut self, backlog: Backlog)
        ensures { self.new.accounts.items ≡ without_backlog backlog self.old.accounts.items }
    {
        if let Some(account) = self.accounts.get_mut(backlog.user) {
            account.take_off(backlog.bytes);
        }
    }

    /// Replaces what waits for a connection.
    pub fn note_backlog(&mut self, before: Backlog, after: Backlog)
        ensures { self.new.accounts.items
            ≡ with_backlog after (without_backlog before self.old.accounts.items) }
    {
        self.leave(before);
        self.add(after);
    }

    /// Charges a user for work.
    pub fn charge(&mut self, user: usize, work: u64)
        ensures { self.new.accounts.items ≡ slice_set self.old.accounts.items user
            (charged work (account_of self.old.accounts.items user)) }
    {
        if let Some(account) = self.accounts.get_mut(user) {
            account.charge(work);
        }
    }
}
