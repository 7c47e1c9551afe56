//! The accounts of a worker's users: their turns and their half blocks.
use std::alloc::Global;
use std::sync::Wait;
use tc_fairness::{Dealing, HalfBlocks, PIECES, Reads};
use tc_item::Moment;
use tc_links::{Gate, Holding, Service};
use tc_locked::Naming;
use tc_plain::{Cache, Progress};
use tc_users::UserNo;

/// Both accounts of all users.
#[derive(Drop)]
pub(crate) struct Accounts {
    dealing: Dealing,
    half_blocks: HalfBlocks,
}

impl Accounts {
    /// Makes the accounts of a worker with no connection.
    pub(crate) fn new(alloc: Global) -> Accounts {
        Accounts {
            dealing: Dealing::new(alloc),
            half_blocks: HalfBlocks::new(alloc),
        }
    }

    /// Begins a turn among `users` users. Only `sole` has something to do, if it is given.
    pub(crate) fn begin(&mut self, users: usize, sole: Option<usize>) {
        self.dealing.begin(users, sole);
        self.half_blocks.open(users);
    }

    /// Returns the number of the turn that began last.
    pub(crate) fn turn(&self) -> u64 {
        self.dealing.turn()
    }

    /// Enters the connection of a key.
    pub(crate) fn enter(&mut self, key: usize, holding: Holding) {
        self.dealing.enter(holding.backlog());
        self.half_blocks.enter(holding.part(key));
    }

    /// Removes the connection of a key, and what waits for it.
    pub(crate) fn leave(&mut self, key: usize, holding: Holding) {
        self.dealing.leave(holding.backlog());
        self.half_blocks.leave(holding.part(key));
    }

    /// Charges work on the connection of a key, and notes what is kept for it before and after.
    pub(crate) fn note(
        &mut self,
        key: usize,
        before: Holding,
        after: Holding,
        work: u64,
        now: Moment,
    ) {
        self.dealing.charge(before.user, work);
        let is_bound = after.user != before.user;
        if is_bound || after.unsent != before.unsent {
            self.dealing.note_backlog(before.backlog(), after.backlog());
        }
        if is_bound || after.unread != before.unread {
            self.half_blocks
                .note(before.part(key), after.part(key), now);
        }
    }

    /// Whether a user has a share of this turn left.
    pub(crate) fn has_share(&mut self, user: usize) -> bool {
        self.dealing.serves(user)
    }

    /// Whether this turn serves a user.
    pub(crate) fn serves<R: Wait, C: Cache, N: Naming, G: Gate>(
        &mut self,
        service: &Service<'_, R, C, N, G>,
        user: usize,
        now: Moment,
    ) -> bool {
        self.has_share(user)
            && (!self.dealing.is_behind(user, now) || self.catch_up(service, user, now))
    }

    /// Maintains a user's cache, which may have deferred work left at this moment. Many items due
    /// in one second are much work, and the first command in that second would do it at once while
    /// others wait. Returns whether the user may be served.
    #[cold]
    #[inline(never)]
    fn catch_up<R: Wait, C: Cache, N: Naming, G: Gate>(
        &mut self,
        service: &Service<'_, R, C, N, G>,
        user: usize,
        now: Moment,
    ) -> bool {
        let Ok(number) = u32::try_from(user) else {
            return true;
        };
        let progress = service
            .hall
            .maintain(service.rt, UserNo::new(number), now, PIECES);
        self.dealing.note_progress(user, now, progress);
        progress == Progress::Done
    }

    /// Returns with how many bytes that wait to be sent a connection is not full yet.
    pub(crate) fn most_out(&self, holding: Holding) -> usize {
        self.dealing.most_out(holding.backlog())
    }

    /// Returns whether the connection of a key may read at this moment.
    pub(crate) fn reads(&mut self, key: usize, holding: Holding, now: Moment) -> Reads {
        self.half_blocks.reads(holding.part(key), now)
    }
}
