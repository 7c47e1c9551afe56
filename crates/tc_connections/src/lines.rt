//! The notices for an operator, shared out by user and cause.
//!
//! A row is a cause and a user, or a cause and nobody.
//!
//! 1. Each row keeps up to four notices a second.
//! 2. They wait in rounds: the first ones of all rows, their second ones, and so on.
//! 3. A notice that is not kept, or finds no line in its second, is counted in its row. The rows'
//!    counts get lines in turn.
//!
//! So however often one thing happens to one user, the operator learns what happens to others, at
//! least as a count.
use crate::notice::{CAUSES, Cause, Notice};
use crossbeam_queue::ArrayQueue;
use std::alloc::{AllocError, Global};
use std::sync::Wait;
use std::sync::atomic::AtomicU64;
use std::sync::atomic::Ordering::SeqCst;
use tc_users::UserNo;

/// The most notices in a second.
const MOST_NOTICES: usize = 10;

/// The most of them that are counts of rows, if kept notices wait.
const MOST_LEFT_OUT: usize = 5;

/// The most notices of a row that are kept in a second.
const ROUNDS: usize = 4;

/// The most notices of a round.
const MOST_OF_ROUND: usize = 64;

/// A cause, and a user or nobody.
#[derive(Drop)]
struct Row {
    user: Option<UserNo>,
    cause: Cause,
    /// The second in which a notice last came.
    second: AtomicU64,
    /// How many notices came in that second.
    came: AtomicU64,
    /// How many notices wait to be told as a count.
    left_out: AtomicU64,
    /// How often the cause arose since the start, with a notice or without.
    total: AtomicU64,
}

/// The rows, and the notices that are kept.
#[derive(Drop)]
pub(crate) struct Lines {
    /// Those of nobody by cause, and then each user's, in the order of the users' numbers.
    rows: Vec<Row>,
    rounds: Vec<ArrayQueue<Notice>>,
    /// How many rows were searched for counts so far.
    looked: AtomicU64,
    /// How many notices of all rows wait to be told as counts.
    left_out: AtomicU64,
    /// How many notices had no line of their own since the start.
    dropped: AtomicU64,
}

/// Returns the user of this number; 0 is nobody.
fn user_of(number: usize) -> Option<UserNo> {
    match number {
        0 => None,
        _ => Some(UserNo::new((number as u64 % 4_294_967_296) as u32)),
    }
}

/// Makes the rows of nobody and of `users` users.
fn rows_of(alloc: Global, users: usize) -> Result<Vec<Row>, AllocError> {
    let mut rows = Vec::new(alloc);
    for number in 0..=users {
        for cause in CAUSES {
            rows.push(Row {
                user: user_of(number),
                cause,
                second: AtomicU64::new(0),
                came: AtomicU64::new(0),
                left_out: AtomicU64::new(0),
                total: AtomicU64::new(0),
            })?;
        }
    }
    Ok(rows)
}

/// Makes empty rounds.
fn empty_rounds(alloc: Global) -> Result<Vec<ArrayQueue<Notice>>, AllocError> {
    let mut rounds = Vec::with_capacity(alloc, ROUNDS)?;
    for _ in 0..ROUNDS {
        rounds.push(ArrayQueue::new(alloc, MOST_OF_ROUND)?)?;
    }
    Ok(rounds)
}

impl Row {
    /// Counts a notice, and returns how many of its row came before it in this second.
    fn count_in(&self, second: u64) -> u64 {
        self.total.fetch_add(1, SeqCst);
        if self.second.swap(second, SeqCst) != second {
            self.came.store(0, SeqCst);
        }
        self.came.fetch_add(1, SeqCst)
    }
}

impl Lines {
    /// Makes the lines of `users` users, without notices.
    pub(crate) fn new(alloc: Global, users: usize) -> Result<Lines, AllocError> {
        Ok(Lines {
            rows: rows_of(alloc, users)?,
            rounds: empty_rounds(alloc)?,
            looked: AtomicU64::new(0),
            left_out: AtomicU64::new(0),
            dropped: AtomicU64::new(0),
        })
    }

    /// Returns the row of a cause, and of a user or nobody.
    fn row_of(&self, user: Option<UserNo>, cause: Cause) -> Option<&Row> {
        let number = match user {
            Some(user) => user.number() as usize,
            None => 0,
        };
        let first = number.saturating_mul(CAUSES.len());
        self.rows.get(first.saturating_add(cause.place()))
    }

    /// Adds one to what a row tells as a count.
    fn count(&self, row: &Row) {
        row.left_out.fetch_add(1, SeqCst);
        self.left_out.fetch_add(1, SeqCst);
    }

    /// Returns how often a cause arose for a user, or for nobody, since the start.
    pub(crate) fn total(&self, user: Option<UserNo>, cause: Cause) -> u64 {
        match self.row_of(user, cause) {
            Some(row) => row.total.load(SeqCst),
            None => 0,
        }
    }

    /// Counts what never has a line of its own.
    pub(crate) fn count_alone(&self, user: Option<UserNo>, cause: Cause) {
        if let Some(row) = self.row_of(user, cause) {
            row.total.fetch_add(1, SeqCst);
            self.count(row);
        }
    }

    /// Counts a notice that gets no line of its own.
    fn leave_out(&self, notice: &Notice) {
        self.dropped.fetch_add(1, SeqCst);
        if let Some(row) = self.row_of(notice.user(), notice.cause()) {
            self.count(row);
        }
    }

    /// Returns how many notices had no line of their own since the start.
    pub(crate) fn dropped(&self) -> u64 {
        self.dropped.load(SeqCst)
    }

    /// Keeps a notice of this second if fewer than four of its row came before it and its round has
    /// room; otherwise counts it. It may spin for a moment while another thread uses the round.
    pub(crate) fn note<R: Wait>(&self, rt: &R, second: u64, notice: Notice) {
        let round = match self.row_of(notice.user(), notice.cause()) {
            Some(row) => row.count_in(second) as usize,
            None => 0,
        };
        let is_kept = match self.rounds.get(round) {
            Some(round) => round.push(rt, notice).is_ok(),
            None => false,
        };
        if !is_kept {
            self.leave_out(&notice);
        }
    }

    /// Appends the count of a row, if there is one, and resets it.
    fn tell_row(&self, row: &Row, told: &mut Vec<Notice>) {
        let count = row.left_out.swap(0, SeqCst);
        if count == 0 {
            return;
        }
        let (user, cause) = (row.user, row.cause);
        let notice = Notice::LeftOut { user, cause, count };
        if told.push(notice).is_err() {
            row.left_out.fetch_add(count, SeqCst);
        } else {
            self.left_out.fetch_sub(count, SeqCst);
        }
    }

    /// Appends the counts of up to `rows` rows in turn, until `told` has `lines` lines. Returns how
    /// many rows it searched.
    fn tell_left_out(&self, told: &mut Vec<Notice>, rows: usize, lines: usize) -> usize {
        for looked in 0..rows {
            if told.len() >= lines || self.left_out.load(SeqCst) == 0 {
                return looked;
            }
            let at = self.looked.fetch_add(1, SeqCst) % (self.rows.len() as u64).max(1);
            if let Some(row) = self.rows.get(at as usize) {
                self.tell_row(row, told);
            }
        }
        rows
    }

    /// Appends the notices of a round. Those that find no line are counted.
    fn tell_round<R: Wait>(&self, rt: &R, round: &ArrayQueue<Notice>, told: &mut Vec<Notice>) {
        for _ in 0..round.len(rt) {
            let Some(notice) = round.pop(rt) else {
                return;
            };
            if told.len() >= MOST_NOTICES || told.push(notice).is_err() {
                self.leave_out(&notice);
            }
        }
    }

    /// Appends this second's notices to an empty list, ten at most. Counts of some rows come first,
    /// in turn. The kept notices follow, round by round, and on remaining lines the counts of other
    /// rows.
    pub(crate) fn tell<R: Wait>(&self, rt: &R, told: &mut Vec<Notice>) {
        let rows = self.rows.len();
        let looked = self.tell_left_out(told, rows, MOST_LEFT_OUT);
        for round in &self.rounds {
            self.tell_round(rt, round, told);
        }
        self.tell_left_out(told, rows.saturating_sub(looked), MOST_NOTICES);
    }
}
