//! The places of all connections, which a server's listener, inlets, wires and keeper share.
use crate::atomic_addr::AtomicAddr;
use crate::lines::Lines;
use crate::notice::{Cause, Notice};
use crate::overdue::{Stay, overdue};
use crate::tallies::Tallies;
use std::alloc::{AllocError, Global};
use std::net::SocketAddr;
use std::sync::Wait;
use std::sync::atomic::AtomicU64;
use std::sync::atomic::Ordering::SeqCst;
use tc_limits::{ConnectionLimits, LimitsByUser};
use tc_users::UserNo;

/// The most open connections.
const MOST_OPEN: usize = 1_024;

/// The place of a connection. Its worker notes what it does; the listener, the keeper or a wire
/// marks it to go.
#[derive(Drop)]
struct Place {
    /// The number of the connection that has the place, from 1; 0 if none has it.
    holder: AtomicU64,
    /// The number of its user; 0 before its login.
    user: AtomicU64,
    /// Its peer.
    peer: AtomicAddr,
    /// The number of the user whose open connections count it; 0 if none do.
    counted: AtomicU64,
    /// The second in which it arrived.
    came: AtomicU64,
    /// The second in which bytes last came from it.
    heard: AtomicU64,
    /// The second since which nothing of what waits for it was taken; 0 if something was.
    stuck: AtomicU64,
    /// The number of a connection that was marked to go from here.
    ousted: AtomicU64,
}

impl Place {
    fn new() -> Place {
        Place {
            holder: AtomicU64::new(0),
            user: AtomicU64::new(0),
            peer: AtomicAddr::new(),
            counted: AtomicU64::new(0),
            came: AtomicU64::new(0),
            heard: AtomicU64::new(0),
            stuck: AtomicU64::new(0),
            ousted: AtomicU64::new(0),
        }
    }

    /// Gives the place to a connection from `peer`.
    fn give(&self, number: u64, peer: SocketAddr, second: u64) {
        self.user.store(0, SeqCst);
        self.peer.store(peer);
        self.came.store(second, SeqCst);
        self.heard.store(second, SeqCst);
        self.stuck.store(0, SeqCst);
        self.holder.store(number, SeqCst);
    }

    /// Returns the number of the connection that has the place and is not marked to go.
    fn staying(&self) -> Option<u64> {
        let holder = self.holder.load(SeqCst);
        if holder == 0 || holder == self.ousted.load(SeqCst) {
            return None;
        }
        Some(holder)
    }

    /// Returns the user of the connection that has the place and is not marked to go.
    fn user(&self) -> Option<UserNo> {
        let _ = self.staying()?;
        match self.user.load(SeqCst) {
            0 => None,
            number => Some(UserNo::new((number % 4_294_967_296) as u32)),
        }
    }

    /// Returns the number of the connection that has the place, is not marked to go, and has no
    /// user yet.
    fn unbound(&self) -> Option<u64> {
        let holder = self.staying()?;
        if self.user.load(SeqCst) == 0 {
            Some(holder)
        } else {
            None
        }
    }

    /// Whether a connection has the place, is not marked to go, and is stuck: nothing of what waits
    /// for it is taken.
    fn is_stuck(&self) -> bool {
        self.staying().is_some() && self.stuck.load(SeqCst) != 0
    }

    fn stay(&self) -> Stay {
        let stuck = self.stuck.load(SeqCst);
        Stay {
            came: self.came.load(SeqCst),
            heard: self.heard.load(SeqCst),
            stuck: if stuck == 0 { None } else { Some(stuck) },
        }
    }
}

/// The places of all connections, the limits on them, how many were closed, and whether the server
/// has ended. The wire of a connection that is marked to go fails, so its worker drops it.
#[derive(Drop)]
pub struct Connections {
    places: Vec<Place>,
    limits: ConnectionLimits,
    user_limits: LimitsByUser,
    /// How many connections each user has.
    tallies: Tallies,
    /// The current second, counted from 1 at the server's start.
    second: AtomicU64,
    closed: AtomicU64,
    /// How many were closed, or not let in, for a limit.
    limited: AtomicU64,
    /// How many logins were refused.
    refused_logins: AtomicU64,
    /// How often one was marked to go.
    ousts: AtomicU64,
    /// In how many seconds one was stuck, and must be tried again.
    retries: AtomicU64,
    /// 1 once the server must end.
    ended: AtomicU64,
    /// The notices for the operator.
    lines: Lines,
}

impl Connections {
    /// Makes the places, with no connection open.
    pub fn new(
        alloc: Global,
        limits: ConnectionLimits,
        user_limits: LimitsByUser,
    ) -> Result<Connections, AllocError> {
        let mut places = Vec::with_capacity(alloc, MOST_OPEN)?;
        for _ in 0..MOST_OPEN {
            places.push(Place::new())?;
        }
        let tallies = Tallies::new(alloc, &user_limits)?;
        let lines = Lines::new(alloc, tallies.len())?;
        Ok(Connections {
            places,
            limits,
            user_limits,
            tallies,
            second: AtomicU64::new(1),
            closed: AtomicU64::new(0),
            limited: AtomicU64::new(0),
            refused_logins: AtomicU64::new(0),
            ousts: AtomicU64::new(0),
            retries: AtomicU64::new(0),
            ended: AtomicU64::new(0),
            lines,
        })
    }

    /// Gives a place to connection `number`, counted from 1, and returns it. If there is none, it
    /// counts the connection as closed and returns `None`.
    pub fn enter(&self, number: u64, peer: SocketAddr) -> Option<usize> {
        for (at, place) in self.places.iter().enumerate() {
            if place.holder.load(SeqCst) == 0 {
                place.give(number, peer, self.second.load(SeqCst));
                return Some(at);
            }
        }
        self.closed.fetch_add(1, SeqCst);
        self.limited.fetch_add(1, SeqCst);
        None
    }

    /// Frees a place, and counts its connection as closed.
    pub fn leave(&self, at: usize) {
        if let Some(place) = self.places.get(at) {
            self.count_out(place);
            place.holder.store(0, SeqCst);
        }
        self.closed.fetch_add(1, SeqCst);
    }

    /// If as many connections have no user as may be, marks the oldest of them to go. Returns
    /// whether it did.
    pub fn make_room(&self) -> bool {
        let Some(most) = self.limits.unbound_connections else {
            return false;
        };
        if self.count_unbound() < u64::from(most) {
            return false;
        }
        match self.oldest_unbound() {
            Some(at) => self.oust(at),
            None => false,
        }
    }

    /// Returns how many connections have no user yet.
    pub fn count_unbound(&self) -> u64 {
        let mut count = 0u64;
        for place in &self.places {
            if place.unbound().is_some() {
                count = count.saturating_add(1);
            }
        }
        count
    }

    /// Returns the place of the oldest connection that has no user yet.
    fn oldest_unbound(&self) -> Option<usize> {
        let mut first = u64::MAX;
        let mut oldest = None;
        for (at, place) in self.places.iter().enumerate() {
            if let Some(number) = place.unbound()
                && number < first
            {
                first = number;
                oldest = Some(at);
            }
        }
        oldest
    }

    /// Marks the connection of a place to go. Returns whether there was one that was not marked. It
    /// wakes no worker.
    pub fn oust(&self, at: usize) -> bool {
        let Some(place) = self.places.get(at) else {
            return false;
        };
        let Some(number) = place.staying() else {
            return false;
        };
        place.ousted.store(number, SeqCst);
        self.count_out(place);
        self.limited.fetch_add(1, SeqCst);
        self.ousts.fetch_add(1, SeqCst);
        true
    }

    /// Notes whose connection has a place. If the user has as many others as it may, the connection
    /// is marked to go.
    pub fn bind(&self, at: usize, user: UserNo) {
        let Some(place) = self.places.get(at) else {
            return;
        };
        place.user.store(u64::from(user.number()), SeqCst);
        let others = self.count_in(place, user);
        if self.is_too_many(user, others) && self.oust(at) {
            self.lines.count_alone(Some(user), Cause::UserFull);
        }
    }

    /// Counts a connection among its user's, and returns how many others the user has.
    fn count_in(&self, place: &Place, user: UserNo) -> u64 {
        let number = u64::from(user.number());
        let others = self.tallies.count_in(number);
        place.counted.store(number, SeqCst);
        others
    }

    /// Removes a connection from its user's count, if it is counted.
    fn count_out(&self, place: &Place) {
        self.tallies.count_out(place.counted.swap(0, SeqCst));
    }

    /// Whether a user with `others` other connections may have no more.
    fn is_too_many(&self, user: UserNo, others: u64) -> bool {
        match self.user_limits.of(user) {
            Some(limits) => match limits.connections {
                Some(most) => others >= u64::from(most),
                None => false,
            },
            None => false,
        }
    }

    /// Returns the notice for the connection of a place, if it has stayed too long.
    fn overdue_at(&self, place: &Place, second: u64) -> Option<Notice> {
        let _ = place.staying()?;
        let user = place.user();
        let own = match user {
            Some(user) => self.user_limits.of(user),
            None => None,
        };
        let timeout = overdue(self.limits, own, place.stay(), second)?;
        Some(Notice::TimedOut {
            peer: place.peer.load(),
            user,
            timeout,
        })
    }

    /// Marks each connection that has stayed too long, with a notice for the operator.
    fn oust_overdue<R: Wait>(&self, rt: &R, second: u64) {
        for (at, place) in self.places.iter().enumerate() {
            if let Some(notice) = self.overdue_at(place, second)
                && self.oust(at)
            {
                self.note(rt, notice);
            }
        }
    }

    /// Notes the current second. Returns whether it is another one than before. If so, it marks
    /// each connection that has stayed too long, and has each stuck one tried again.
    ///
    /// A poll reports a socket as writable only once a third of its room is free. A slow client may
    /// take longer for that than the limit on stuck connections.
    pub fn note_second<R: Wait>(&self, rt: &R, second: u64) -> bool {
        if self.second.swap(second, SeqCst) == second {
            return false;
        }
        self.oust_overdue(rt, second);
        if self.places.iter().any(|place| place.is_stuck()) {
            self.retries.fetch_add(1, SeqCst);
        }
        true
    }

    /// Notes that bytes came from the connection of a place. It writes the word only if that
    /// changes: places of several workers' connections share cache lines.
    pub fn note_heard(&self, at: usize) {
        let Some(place) = self.places.get(at) else {
            return;
        };
        let second = self.second.load(SeqCst);
        if place.heard.load(SeqCst) != second {
            place.heard.store(second, SeqCst);
        }
    }

    /// Notes whether something of what waits for the connection was taken.
    pub fn note_taken(&self, at: usize, is_taken: bool) {
        let Some(place) = self.places.get(at) else {
            return;
        };
        let is_stuck = place.stuck.load(SeqCst) != 0;
        if is_taken && is_stuck {
            place.stuck.store(0, SeqCst);
        } else if !is_taken && !is_stuck {
            place.stuck.store(self.second.load(SeqCst), SeqCst);
        }
    }

    /// Whether the connection of a place is marked to go, or the server must end.
    pub fn is_over(&self, at: usize) -> bool {
        if self.has_ended() {
            return true;
        }
        match self.places.get(at) {
            Some(place) => place.staying().is_none(),
            None => false,
        }
    }

    /// Returns how often a connection was marked to go.
    pub fn ousts(&self) -> u64 {
        self.ousts.load(SeqCst)
    }

    /// Returns in how many seconds a connection was stuck.
    pub fn retries(&self) -> u64 {
        self.retries.load(SeqCst)
    }

    /// Whether nothing is taken of what waits for the connection of a place.
    pub fn is_stuck(&self, at: usize) -> bool {
        match self.places.get(at) {
            Some(place) => place.is_stuck(),
            None => false,
        }
    }

    /// Returns how many connections were closed, with those that got no place.
    pub fn closed(&self) -> u64 {
        self.closed.load(SeqCst)
    }

    /// Returns how many connections were closed, or not let in, for a limit.
    pub fn limited(&self) -> u64 {
        self.limited.load(SeqCst)
    }

    /// Returns how many logins were refused.
    pub fn refused_logins(&self) -> u64 {
        self.refused_logins.load(SeqCst)
    }

    /// Returns the current second, counted from 1 at the server's start.
    pub fn second(&self) -> u64 {
        self.second.load(SeqCst)
    }

    /// Returns how many places there are.
    pub fn len(&self) -> usize {
        self.places.len()
    }

    /// Returns the peer of the connection that has a place, or had it last.
    pub fn peer_at(&self, at: usize) -> Option<SocketAddr> {
        Some(self.places.get(at)?.peer.load())
    }

    /// Returns the user of the connection of a place; `None` before its login, or once it is marked
    /// to go.
    pub fn user_at(&self, at: usize) -> Option<UserNo> {
        self.places.get(at)?.user()
    }

    /// Notes something for the operator. It may spin for a moment while another thread uses the
    /// queue of notices.
    pub fn note<R: Wait>(&self, rt: &R, notice: Notice) {
        self.lines.note(rt, self.second.load(SeqCst), notice);
    }

    /// Counts a refused login.
    pub fn count_refused_login(&self) {
        self.refused_logins.fetch_add(1, SeqCst);
    }

    /// Replaces `told` with the notices of this second: ten at most, shared out by user and cause.
    pub fn take_notices<R: Wait>(&self, rt: &R, told: &mut Vec<Notice>) {
        told.clear();
        self.lines.tell(rt, told);
    }

    /// Returns how many notices had no line of their own since the start.
    pub fn left_out(&self) -> u64 {
        self.lines.dropped()
    }

    /// Returns how often a cause arose for a user, or for nobody, since the start.
    pub fn total(&self, user: Option<UserNo>, cause: Cause) -> u64 {
        self.lines.total(user, cause)
    }

    /// Ends the server: no further connection enters, and workers drop the open ones.
    pub fn end(&self) {
        self.ended.store(1, SeqCst);
    }

    /// Whether the server must end.
    pub fn has_ended(&self) -> bool {
        self.ended.load(SeqCst) != 0
    }
}
