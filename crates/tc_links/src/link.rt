//! One connection of a worker.
ghost use Rattle.std.specs.Prelude.{◌≡◌, ◌≢◌, ◌≤◌, ℕ, List, [], true, false, length};
ghost use Rattle.std.specs.Prelude.{OnSome, IfNone, Some, IsSome};
ghost use Rattle.tc_model.specs.Connection.{new_endpoint, with_piece};
ghost use Rattle.tc_session.specs.TextProtocol.{text_protocol};
ghost use Rattle.tc_links.specs.Talks.{Carries};
ghost use Rattle.tc_links.specs.Turns.{longest_piece, most_kept};

pub(crate) mod requests;

use crate::admitted::Admitted;
use crate::ahead::Ahead;
use crate::holding::Holding;
use crate::homes::Homes;
use crate::pace::{Onward, Pace};
use crate::wire::{Change, Got, Put, Remark, Wire};
use crate::work::Work;
use std::alloc::Global;
use std::marker::Model;
use std::sync::Wait;
use tc_fairness::Guesses;
use tc_item::Moment;
use tc_session::Session;
use tc_users::UserNo;

/// The most bytes of one read.
pub const LONGEST_PIECE: usize = 16_384;

/// The first byte of a client of the binary protocol (doc/protocol-binary.txt).
const BINARY: u8 = 0x80;

/// A wire that took this many bytes in one part of a turn gets no more until the other connections
/// had theirs.
const MOST_TAKEN: usize = 524_288;

/// A connection: its wire, and what came on it. Contracts see its number, its session, whether no
/// whole request is unread, the bytes that its wire gave and took, and the number of its latest
/// entry.
#[derive(Drop)]
pub(crate) struct Link<W: Wire + Drop> {
    pub(crate) conn: u32,
    wire: W,
    session: Session,
    /// Nothing is unread, or the last request that it asked for isn't whole.
    rests: bool,
    /// When memory was first refused to a request, if each request since then was refused too.
    refused: Option<Moment>,
    /// Its inlet names it when its wire may be read or written again.
    is_watched: bool,
    /// It is on its worker's list.
    is_listed: bool,
    /// How far it got in its turn.
    pace: Pace,
    /// As whom and when it was admitted to its turn.
    admitted: Admitted,
    /// Its wire knows its user.
    is_told: bool,
    /// No byte came yet.
    is_new: bool,
    /// Its first byte is one of the binary protocol.
    is_binary: bool,
    /// Its refused logins.
    guesses: Guesses,
    /// The work of this part of its turn.
    work: Work,
    /// The number of its latest call's entry in the book, 0 before the first; `None` once a number
    /// was not above the one before it. A book numbers its entries upwards and a connection has one
    /// user for good, so `None` never occurs. The check replaces a proof that the calls of two
    /// workers for one connection are entered in order.
    last: Option<u64>,
}

impl<W: Wire + Drop> Model for Link<W> {
    ghost use Rattle.std.specs.Prelude.{◌≡◌, ◌≤◌, true, length};
    ghost use Rattle.tc_session.specs.SessionView.{most_resting};
    ghost use Rattle.tc_links.specs.Turns.{most_kept};
    ghost use Rattle.tc_links.specs.Talks.{LinkState};

    ghost Value = { LinkState };

    ghost view = { λ l. record {
      conn = l.conn;
      session = l.session;
      rests = l.rests;
      gave = W.gave l.wire;
      took = W.took l.wire;
      last = l.last;
    } };

    ghost invariant = { λ l. (length l.session.endpoint.reader.unread ≤ most_kept)
        × (l.rests ≡ true → length l.session.endpoint.reader.unread ≤ most_resting) };
}

impl<W: Wire + Drop> Link<W> {
    /// Opens a connection.
    pub(crate) fn new(alloc: Global, conn: u32, wire: W) -> Link<W>
        ensures conn { result.conn ≡ conn }
        ensures endpoint { result.session.endpoint ≡ new_endpoint text_protocol }
        ensures out { result.session.out ≡ [] }
        ensures gave { result.gave ≡ W.gave wire }
        ensures took { result.took ≡ W.took wire }
        ensures last { result.last ≡ Some 0 }
    {
        Link {
            conn,
            wire,
            session: Session::new(alloc),
            rests: true,
            refused: None,
            is_watched: false,
            is_listed: true,
            pace: Pace::Rests,
            admitted: Admitted::not_yet(),
            is_told: false,
            is_new: true,
            is_binary: false,
            guesses: Guesses::none(),
            work: Work::none(),
            last: Some(0),
        }
    }

    /// Returns the wire of a connection that is given up.
    pub(crate) fn into_wire(self) -> W {
        let Link {
            conn: _,
            wire,
            session: _,
            rests: _,
            refused: _,
            is_watched: _,
            is_listed: _,
            pace: _,
            admitted: _,
            is_told: _,
            is_new: _,
            is_binary: _,
            guesses: _,
            work: _,
            last: _,
        } = self;
        wire
    }

    /// Makes an inlet's change to its wire, when the inlet passes it on or takes it over. Returns
    /// whether the change succeeded.
    pub(crate) fn change_wire<C: Change<W>>(&mut self, change: C) -> bool
        ensures { self.new ≡ self.old }
    {
        change.change(&mut self.wire)
    }

    /// Returns the worker that must serve it, if that is another one; `None` before its login.
    pub(crate) fn leaves_for(&mut self, homes: &Homes) -> Option<usize>
        ensures { self.new ≡ self.old }
    {
        let user = self.session.user()?;
        self.meet(user);
        homes.elsewhere(user, self.conn)
    }

    /// Notes its pace. A connection that rests leaves the list.
    pub(crate) fn note_pace(&mut self, pace: Pace)
        ensures { self.new ≡ self.old }
    {
        if pace == Pace::Rests {
            self.is_listed = false;
        }
    }

    /// Notes that it is on its worker's list, and returns whether it was not.
    pub(crate) fn note_listed(&mut self) -> bool
        ensures { self.new ≡ self.old }
    {
        let was_listed = self.is_listed;
        self.is_listed = true;
        !was_listed
    }

    /// Passes its key to the wire.
    pub(crate) fn set_key(&mut self, key: usize)
        ensures { self.new ≡ self.old }
    {
        self.is_watched = self.wire.set_key(key);
    }

    /// Returns whose account it is on: its user's number, 0 before its login.
    pub(crate) fn user(&self) -> usize {
        match self.session.user() {
            Some(user) => user.number() as usize,
            None => 0,
        }
    }

    /// Admits it to a turn.
    pub(crate) fn admit(&mut self, admitted: Admitted)
        ensures { self.new ≡ self.old }
    {
        self.admitted = admitted;
    }

    /// Sets with how many bytes that wait to be sent it is not full yet.
    pub(crate) fn set_most_out(&mut self, most_out: usize)
        ensures { self.new ≡ self.old }
    {
        self.admitted.most_out = most_out;
    }

    /// Returns whose account it is on, and how many of its bytes are kept.
    pub(crate) fn holding(&self) -> Holding {
        Holding {
            user: self.user(),
            unread: self.session.unread_len(),
            unsent: self.session.about_out(),
        }
    }

    /// Makes its wire end, since it holds up others of its user.
    pub(crate) fn give_up<R: Wait>(&mut self, rt: &R)
        ensures { self.new ≡ self.old }
    {
        self.wire.note(rt, Remark::HoldsUp);
    }

    /// Returns the work of the last part of a turn, in quarters of a microsecond.
    pub(crate) fn work(&self) -> u64 {
        self.work.units()
    }

    /// Returns the user of its login.
    pub(crate) fn bound(&self) -> Option<UserNo> {
        self.session.user()
    }

    /// Adds the keys that its next requests seem to ask for, if it is this user's. Returns whether
    /// it is.
    pub(crate) fn look_ahead(&self, user: UserNo, ahead: &mut Ahead) -> bool {
        let is_of_user = self.bound() == Some(user);
        if is_of_user {
            ahead.look(&self.session);
        }
        is_of_user
    }

    /// Returns how many of its bytes are unread.
    pub(crate) fn unread_len(&self) -> usize
        ensures { result ≤ most_kept }
    {
        self.session.unread_len()
    }

    /// The first part of a turn: reads, and parses a request ahead while the worker holds no lock.
    /// Returns whether the connection goes on.
    pub(crate) fn take_in<R: Wait>(&mut self, rt: &R, alloc: Global, buffer: &mut [u8]) -> bool
        ensures moved { (lost : List ℕ) × Carries [] lost self.old self.new
            × (result ≡ true → lost ≡ []) }
    {
        self.work = Work::none();
        self.pace = Pace::Tries;
        if self.guesses.waits() {
            return true;
        }
        match self.read(buffer) {
            Some(came) => {
                self.pace = came;
                self.session.read_ahead(alloc);
                true
            }
            None => {
                self.tell_binary(rt);
                false
            }
        }
    }

    /// The last part of a turn: writes, and looks once more whether there is something to read.
    pub(crate) fn give_out(&mut self, now: Moment, buffer: &mut [u8]) -> Onward
        ensures moved { (sent lost : List ℕ) × Carries sent lost self.old self.new
            × (result ≢ Onward.Done → lost ≡ []) }
    {
        self.work = Work::none();
        if self.guesses.still_waits(now) {
            return Onward::GoesOn(Pace::Tries);
        }
        self.give_replies(now, buffer)
    }

    /// The last part of a turn in which no reply is held back.
    fn give_replies(&mut self, now: Moment, buffer: &mut [u8]) -> Onward
        ensures moved { (sent lost : List ℕ) × Carries sent lost self.old self.new
            × (result ≢ Onward.Done → lost ≡ []) }
    {
        if !self.send() || self.is_starved(now) {
            return Onward::Done;
        }
        let Some(pace) = self.look_again(self.pace, buffer) else {
            return Onward::Done;
        };
        if self.session.is_closed() && !self.session.has_out() {
            return Onward::Done;
        }
        match pace {
            Pace::Rests if !self.is_watched => Onward::GoesOn(Pace::Tries),
            pace => Onward::GoesOn(pace),
        }
    }

    /// Writes, and notes the pace. Returns whether the wire goes on.
    fn send(&mut self) -> bool
        ensures sends { (sent : List ℕ) × Carries sent [] self.old self.new }
    {
        match self.write() {
            Some(went) => {
                self.pace = self.pace.and(went);
                true
            }
            None => false,
        }
    }

    /// Reads once more if the turn got on and left nothing to do or to send; `None` if the
    /// connection is over. So a wire with nothing to read says so before its worker waits. The next
    /// turn serves what this read gives.
    fn look_again(&mut self, pace: Pace, buffer: &mut [u8]) -> Option<Pace>
        ensures moved { (lost : List ℕ) × Carries [] lost self.old self.new
            × (IsSome result → lost ≡ []) }
    {
        let is_through = self.rests && !self.session.has_out();
        if pace != Pace::GetsOn || !is_through || !self.is_watched {
            return Some(pace);
        }
        self.read(buffer)
    }

    /// Whether memory was refused to its requests for a whole second, so that its client would
    /// hang.
    fn is_starved(&self, now: Moment) -> bool {
        match self.refused {
            Some(since) => now.seconds() > since.seconds() + 1,
            None => false,
        }
    }

    /// Whether so much waits to be sent that its client must read first.
    fn is_full(&self) -> bool {
        self.session.about_out() > self.admitted.most_out
    }

    /// Whether it reads nothing: it is full, or another of its user leads.
    fn is_unread(&self) -> bool {
        self.is_full() || !self.admitted.is_read
    }

    /// Reads once, if no whole request is unread and it isn't full; `None` if the connection is
    /// over.
    fn read(&mut self, buffer: &mut [u8]) -> Option<Pace>
        ensures moved { (lost : List ℕ) × Carries [] lost self.old self.new
            × (IsSome result → lost ≡ []) }
    {
        if !self.rests || self.session.is_closed() || self.is_unread() {
            return Some(self.admitted.pace_unread());
        }
        let room = buffer.len().min(LONGEST_PIECE);
        let into = &mut buffer[..room];
        match self.wire.read(into) {
            Got::Bytes(0) => Some(Pace::Tries),
            Got::Bytes(n) => {
                self.work.add_read(n);
                self.take(&into[..n])
            }
            Got::Later => Some(Pace::Rests),
            Got::Ended => {
                // All whole requests are done; what waits is still written.
                self.session.shut();
                Some(Pace::GetsOn)
            }
            Got::Failed => None,
        }
    }

    /// Takes what came. `None` if memory is refused, or if the first byte is one of the binary
    /// protocol, whose client would wait for ever.
    fn take(&mut self, piece: &[u8]) -> Option<Pace>
        requires piece { length piece.now ≤ longest_piece }
        requires rests { self.old.rests ≡ true }
        ensures came { OnSome result (self.new.session.endpoint
            ≡ with_piece text_protocol self.old.session.endpoint piece.now) }
        ensures refused { IfNone result (self.new.session.endpoint ≡ self.old.session.endpoint) }
        ensures out { self.new.session.out ≡ self.old.session.out }
        ensures conn { self.new.conn ≡ self.old.conn }
        ensures gave { self.new.gave ≡ self.old.gave }
        ensures took { self.new.took ≡ self.old.took }
        ensures last { self.new.last ≡ self.old.last }
    {
        self.is_binary = self.is_new && piece.first() == Some(&BINARY);
        if self.is_binary || self.session.push(piece).is_err() {
            return None;
        }
        self.is_new = false;
        self.rests = false;
        Some(Pace::GetsOn)
    }

    /// Notes for the operator that the client speaks the binary protocol.
    fn tell_binary<R: Wait>(&mut self, rt: &R)
        ensures { self.new ≡ self.old }
    {
        if self.is_binary {
            self.wire.note(rt, Remark::IsBinary);
        }
    }

    /// Tells the wire its user, once.
    fn meet(&mut self, user: UserNo)
        ensures { self.new ≡ self.old }
    {
        if !self.is_told {
            self.tell_user(user);
        }
    }

    /// Tells the wire its user.
    #[cold]
    fn tell_user(&mut self, user: UserNo)
        ensures { self.new ≡ self.old }
    {
        self.is_told = true;
        self.wire.set_user(user);
    }

    /// Writes until all is sent, the wire takes no more, or it took 524,288 bytes; `None` if the
    /// wire fails.
    fn write(&mut self) -> Option<Pace>
        ensures sends { (sent : List ℕ) × Carries sent [] self.old self.new }
    {
        let mut pace = Pace::Rests;
        let mut taken = 0usize;
        for _ in 0..u64::MAX {
            if !self.session.has_out() || taken >= MOST_TAKEN {
                return Some(pace);
            }
            match self.put() {
                Put::Wrote(0) => return Some(pace.and(Pace::Tries)),
                Put::Wrote(n) => taken = taken.saturating_add(n),
                Put::Later => return Some(pace),
                Put::Failed => return None,
            }
            pace = Pace::GetsOn;
        }
        Some(pace)
    }

    /// Writes once.
    fn put(&mut self) -> Put
        ensures sends { (sent : List ℕ) × Carries sent [] self.old self.new }
    {
        self.session.settle();
        match self.wire.write(&self.session.parts()) {
            Put::Wrote(n) => {
                self.session.sent(n);
                self.work.add_write(n);
                Put::Wrote(n)
            }
            Put::Later => Put::Later,
            Put::Failed => Put::Failed,
        }
    }
}
