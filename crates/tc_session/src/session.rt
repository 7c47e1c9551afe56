//! A connection: its next request, and the reply to it.
//!
//! `session/unbound.rt` handles requests before a login, and `session/declining.rt` requests for
//! which there is no memory. A session reads its own bytes and the users' table, and knows no
//! socket and no cache.
ghost use Rattle.std.specs.Prelude.{◌≡◌, ◌≢◌, ◌+◌, ◌-◌, ◌<◌, ◌≤◌, ◌++◌, ◌↔◌, List, [], true, false, drop, take, length};
ghost use Rattle.std.specs.Prelude.{None, Some, IsOk, IfOk, IfSome, IsTrue, OnOk, OnErr};
ghost use Rattle.tc_model.specs.Connection.{turn, with_piece, shut_endpoint, new_endpoint, Bound, Nothing, Close, is_closed};
ghost use Rattle.tc_session.specs.Declines.{IsAsked};
ghost use Rattle.tc_session.specs.Refusals.{refusal_of};
ghost use Rattle.tc_session.specs.Refusing.{WantsMemory};
ghost use Rattle.tc_session.specs.Replies.{can_end, render, is_long};
ghost use Rattle.tc_stats.specs.declared.outcome.Outcome.TheVariants.{Values};
ghost use Rattle.tc_session.specs.SessionView.{want_of, fault_want, fault_phase, KeepsAtMost, most_resting};
ghost use Rattle.tc_session.specs.SessionView.{reply_room, needed_room, turn_bound, resting_turn, IsDone};
ghost use Rattle.tc_session.specs.TextProtocol.{text_protocol, fault_said};
ghost use Rattle.tc_users.specs.declared.users.UserSpec.{UserSpec};

mod declining;
mod unbound;

use crate::Want;
use crate::answering::form_of;
use crate::declined::Declined;
use crate::news::News;
use crate::parts::Parts;
use crate::replies::Replies;
use std::alloc::Global;
use std::marker::Model;
use tc_feed::{Feed, Peeked, Request};
use tc_grammar::{Command, Fault};
use tc_item::{LARGEST_ITEM, NoMemory};
use tc_stats::{Hits, Outcome};
use tc_users::{UserNo, Users};

/// The most bytes of a block before a login. After it the limit is that of an item's data.
const UNBOUND_LIMIT: u32 = 256;

/// The room, in bytes, that suffices for any reply but that of a look-up or of `stats`, and for a
/// refusal.
const REPLY_ROOM: usize = 64;

/// The room, in bytes, that reading a request requires: for what it says at once, and for a reply
/// or its refusal.
const NEEDED_ROOM: usize = 2 * REPLY_ROOM;

/// A request is read ahead only if at most this many bytes are unread, so that waiting keys take
/// little memory.
const MOST_AHEAD: usize = 2_048;

/// Whom a connection belongs to.
#[derive(Clone, Copy, PartialEq, Eq)]
enum Phase {
    Unbound,
    /// The connection belongs to this user.
    Bound(UserNo),
    Closed,
}

/// A connection: its unread bytes, its user, and the bytes that wait to be sent.
#[derive(Drop)]
pub struct Session {
    feed: Feed,
    phase: Phase,
    out: Replies,
    /// The last event that deserves a line in a log, until `take_news`. No reply depends on it.
    news: Option<News>,
}

impl Model for Session {
    ghost use Rattle.tc_session.specs.SessionView.{SessionView, phase_of};

    ghost Value = { SessionView };

    ghost view = { λ s. record {
      endpoint = record { phase = phase_of s.phase; reader = s.feed };
      out = s.out.bytes;
      unwritten = s.out.unwritten;
      room = s.out.room;
    } };
}

impl Session {
    /// Returns a connection as it is opened: unbound, with nothing to read or to send.
    pub fn new(alloc: Global) -> Session
        ensures endpoint { result.endpoint ≡ new_endpoint text_protocol }
        ensures out { result.out ≡ [] }
    {
        Session {
            feed: Feed::new(alloc),
            phase: Phase::Unbound,
            out: Replies::new(alloc),
            news: None,
        }
    }

    /// Takes bytes that arrived. A closed connection drops them. If memory is refused, nothing
    /// changes.
    pub fn push(&mut self, piece: &[u8]) -> Result<(), NoMemory>
        ensures endpoint { OnOk result (self.new.endpoint
            ≡ with_piece text_protocol self.old.endpoint piece.now) }
        ensures out { self.new.out ≡ self.old.out }
        ensures longer { length self.new.endpoint.reader.unread
            ≤ length self.old.endpoint.reader.unread + length piece.now }
        ensures unchanged_on_err { OnErr result (self.new ≡ self.old) }
    {
        match self.phase {
            Phase::Closed => Ok(()),
            Phase::Unbound | Phase::Bound(_) => self.feed.push(piece),
        }
    }

    /// Reads the connection's next request, and answers at once what needs no cache. After
    /// `Want::Nothing`, an open connection has at most 65,538 bytes unread beyond the limit of a
    /// block, which is 256 before the login and 1,048,576 after it.
    ///
    /// If memory is refused, the request stays unread and nothing is said. That happens only if
    /// there is less than 128 bytes of room and no more to be had, or if an open connection has a
    /// whole line unread.
    pub fn next(&mut self, alloc: Global, users: &Users) -> Result<Want, NoMemory>
        ensures want { IfOk result (λ want. want_of want
            ≡ (turn text_protocol users.now self.old.endpoint).want) }
        ensures endpoint { OnOk result (self.new.endpoint
            ≡ (turn text_protocol users.now self.old.endpoint).endpoint) }
        ensures said { OnOk result (self.new.out
            ≡ self.old.out ++ (turn text_protocol users.now self.old.endpoint).said) }
        ensures room { OnOk result (reply_room ≤ self.new.room) }
        ensures bounded { IfOk result (λ want. want_of want ≡ Nothing
            → KeepsAtMost self.old.endpoint.phase (length self.new.endpoint.reader.unread)) }
        ensures open_bounded { IfOk result (λ want. want_of want ≡ Nothing
            → is_closed self.old.endpoint.phase ≡ false
            → length self.new.endpoint.reader.unread ≤ most_resting) }
        ensures no_longer { length self.new.endpoint.reader.unread
            ≤ length self.old.endpoint.reader.unread }
        ensures refused { OnErr result (WantsMemory self.old) }
        ensures endpoint_on_err { OnErr result (self.new.endpoint ≡ self.old.endpoint) }
        ensures out_on_err { OnErr result (self.new.out ≡ self.old.out) }
    {
        self.out.reserve(NEEDED_ROOM)?;
        if self.is_resting() {
            return Ok(Want::Nothing);
        }
        let phase = self.phase;
        match phase {
            Phase::Closed => Ok(Want::Nothing),
            Phase::Unbound => {
                let request = self.feed.next(alloc, UNBOUND_LIMIT)?;
                Ok(self.serve_unbound(users, request))
            }
            Phase::Bound(user) => {
                let request = self.feed.next(alloc, LARGEST_ITEM)?;
                Ok(self.serve_bound(user, request))
            }
        }
    }

    /// Reads a bound connection's next request ahead if it is a short look-up, so that `next` has
    /// it at once. It is not done.
    pub fn read_ahead(&mut self, alloc: Global)
        ensures { self.new ≡ self.old }
    {
        if matches!(self.phase, Phase::Bound(_)) && self.feed.unread_len() <= MOST_AHEAD {
            self.feed.read_ahead(alloc, LARGEST_ITEM);
        }
    }

    /// Whether the last search already shows that nothing is to be done until more bytes arrive.
    /// Most searches for a further request end here.
    fn is_resting(&self) -> bool
        ensures none { IsTrue result → (rows : List UserSpec)
            → turn text_protocol rows self.now.endpoint ≡ resting_turn self.now.endpoint }
        ensures bounded { IsTrue result → KeepsAtMost self.now.endpoint.phase
            (length self.now.endpoint.reader.unread) }
    {
        match self.phase {
            Phase::Closed => true,
            Phase::Unbound => self.feed.is_waiting(UNBOUND_LIMIT),
            Phase::Bound(_) => self.feed.is_waiting(LARGEST_ITEM),
        }
    }

    /// Reads the connection's next request as `next` does. If memory is refused, the request stays
    /// unread, nothing is said, and `ask` fails, unless `is_retry`.
    ///
    /// With `is_retry`, a refusal makes `ask` skip a bound connection's whole request instead, with
    /// its block. A command is declined: it is not done, and `declined` lists it. Its reply is
    /// `SERVER_ERROR out of memory`, unless its line has `noreply`, and the result is `None`. `ask`
    /// handles `quit` and faults as `next` does.
    ///
    /// A retry still fails if the connection is not bound, no whole request is there, or memory for
    /// what it says is refused. Then the request stays unread, and nothing is said or listed.
    pub fn ask(
        &mut self,
        alloc: Global,
        users: &Users,
        is_retry: bool,
        declined: &mut Declined,
    ) -> Result<Option<Want>, NoMemory>
        ensures asked { IfOk result (IsAsked (turn text_protocol users.now self.old.endpoint)
            self.old self.new declined.old declined.new) }
        ensures endpoint { OnOk result (self.new.endpoint
            ≡ (turn text_protocol users.now self.old.endpoint).endpoint) }
        ensures room { OnOk result (reply_room ≤ self.new.room) }
        ensures open_bounded { IfOk result (λ asked. IfSome asked (λ want. want_of want ≡ Nothing
            → is_closed self.old.endpoint.phase ≡ false
            → length self.new.endpoint.reader.unread ≤ most_resting)) }
        ensures no_longer { length self.new.endpoint.reader.unread
            ≤ length self.old.endpoint.reader.unread }
        ensures endpoint_on_err { OnErr result (self.new.endpoint ≡ self.old.endpoint) }
        ensures out_on_err { OnErr result (self.new.out ≡ self.old.out) }
        ensures declined_on_err { OnErr result (declined.new ≡ declined.old) }
    {
        match self.next(alloc, users) {
            Ok(want) => Ok(Some(want)),
            Err(NoMemory) if is_retry => self.decline_listed(alloc, declined),
            Err(NoMemory) => Err(NoMemory),
        }
    }

    /// Does a request of a bound connection.
    fn serve_bound(&mut self, user: UserNo, request: Option<Request>) -> Want
        requires room { needed_room ≤ self.old.room }
        requires bound { self.old.endpoint.phase ≡ Bound user }
        ensures done { IsDone (turn_bound user self.old request) self.old self.new result }
        ensures rests { want_of result ≡ Nothing → request ≡ None }
        ensures reader { self.new.endpoint.reader ≡ self.old.endpoint.reader }
        ensures room { reply_room ≤ self.new.room }
    {
        match request {
            None => Want::Nothing,
            Some(Request::Ask(Command::Quit)) => self.close(),
            Some(Request::Ask(command)) => Want::Call(user, command),
            Some(Request::Refused { fault, quiet }) => self.fail(fault, quiet),
        }
    }

    /// Says a fault, unless it is quiet. After a line that is too long it closes the connection.
    fn fail(&mut self, fault: Fault, quiet: bool) -> Want
        requires { needed_room ≤ self.old.room }
        ensures want { want_of result ≡ fault_want fault }
        ensures busy { want_of result ≢ Nothing }
        ensures phase { self.new.endpoint.phase ≡ fault_phase fault self.old.endpoint.phase }
        ensures reader { self.new.endpoint.reader ≡ self.old.endpoint.reader }
        ensures said { self.new.out ≡ self.old.out ++ fault_said fault quiet }
        ensures room { reply_room ≤ self.new.room }
    {
        self.say_fault(fault, quiet);
        match fault {
            Fault::LineTooLong => self.close(),
            _ => Want::Said,
        }
    }

    /// Appends a fault's line, unless it is quiet.
    fn say_fault(&mut self, fault: Fault, quiet: bool)
        requires { reply_room ≤ self.old.room }
        ensures endpoint { self.new.endpoint ≡ self.old.endpoint }
        ensures said { self.new.out ≡ self.old.out ++ fault_said fault quiet }
        ensures room { self.old.room ≤ self.new.room + reply_room }
    {
        if !quiet {
            self.out.write_fault(fault);
        }
    }

    /// Appends the reply to a command that ended in this outcome. `can_end` must hold of the two.
    /// If memory is refused, the reply is `SERVER_ERROR out of memory` instead, unless the line has
    /// `noreply`. That happens only to a look-up or to `stats`.
    pub fn answer(&mut self, command: &Command, outcome: &Outcome) -> Result<(), NoMemory>
        requires room { reply_room ≤ self.old.room }
        requires can_end { can_end command.now outcome.now ≡ true }
        ensures endpoint { self.new.endpoint ≡ self.old.endpoint }
        ensures reply { OnOk result (self.new.out
            ≡ self.old.out ++ render command.now outcome.now) }
        ensures refused { OnErr result (self.new.out ≡ self.old.out ++ refusal_of command.now) }
        ensures short { is_long outcome.now ≡ false → IsOk result }
    {
        if self.out.write_reply(command, outcome).is_err() {
            self.refuse(command);
            return Err(NoMemory);
        }
        Ok(())
    }

    /// Does what `answer` does, but mostly leaves writing a look-up's text for later: to `settle`,
    /// `sent`, or the next text that is written. It makes room at once, so it also reports a
    /// refusal at once.
    pub fn answer_later(&mut self, command: &Command, outcome: Outcome) -> Result<(), NoMemory>
        requires room { reply_room ≤ self.old.room }
        requires can_end { can_end command.now outcome ≡ true }
        ensures endpoint { self.new.endpoint ≡ self.old.endpoint }
        ensures reply { OnOk result (self.new.out ≡ self.old.out ++ render command.now outcome) }
        ensures refused { OnErr result (self.new.out ≡ self.old.out ++ refusal_of command.now) }
        ensures short { is_long outcome ≡ false → IsOk result }
    {
        match outcome {
            Outcome::Values(hits) => self.owe(command, hits),
            outcome => self.answer(command, &outcome),
        }
    }

    /// Owes the reply to a look-up.
    fn owe(&mut self, command: &Command, hits: Hits) -> Result<(), NoMemory>
        requires room { reply_room ≤ self.old.room }
        requires can_end { can_end command.now (Values hits) ≡ true }
        ensures endpoint { self.new.endpoint ≡ self.old.endpoint }
        ensures reply { OnOk result (self.new.out
            ≡ self.old.out ++ render command.now (Values hits)) }
        ensures refused { OnErr result (self.new.out ≡ self.old.out ++ refusal_of command.now) }
    {
        if command.is_quiet() {
            return Ok(());
        }
        if self.out.owe(form_of(command), hits).is_err() {
            self.refuse(command);
            return Err(NoMemory);
        }
        Ok(())
    }

    /// Appends `SERVER_ERROR out of memory` as the reply to a command, unless its line has
    /// `noreply`.
    pub fn refuse(&mut self, command: &Command)
        requires { reply_room ≤ self.old.room }
        ensures endpoint { self.new.endpoint ≡ self.old.endpoint }
        ensures refused { self.new.out ≡ self.old.out ++ refusal_of command.now }
    {
        self.news = Some(News::NoMemory);
        self.say_fault(Fault::NoMemory, command.is_quiet());
    }

    /// Takes the last event that deserves a line in a log. It does not cover a refused `next`,
    /// which the caller sees.
    pub fn take_news(&mut self) -> Option<News>
        ensures { self.new ≡ self.old }
    {
        let news = self.news;
        self.news = None;
        news
    }

    /// Writes the replies that `answer_later` left.
    pub fn settle(&mut self)
        ensures endpoint { self.new.endpoint ≡ self.old.endpoint }
        ensures out { self.new.out ≡ self.old.out }
        ensures written { self.new.unwritten ≡ 0 }
    {
        self.out.settle();
    }

    /// Returns the bytes that wait to be sent, less those that are not written yet.
    pub fn parts(&self) -> Parts<'_>
        ensures parts { result ≡ take (length self.now.out - self.now.unwritten) self.now.out }
        ensures whole { self.now.unwritten ≡ 0 → result ≡ self.now.out }
    {
        self.out.parts()
    }

    /// Returns a copy of all bytes that wait to be sent, with those that are not written yet.
    pub fn copy_out(&self, alloc: Global) -> Result<Vec<u8>, NoMemory>
        ensures { IfOk result (λ bytes. bytes.items ≡ self.now.out) }
    {
        self.out.to_vec(alloc)
    }

    /// Estimates how many bytes wait to be sent; a reply not written yet counts with the room made
    /// for it. No clause promises it.
    pub fn about_out(&self) -> usize {
        self.out.about()
    }

    /// Whether bytes wait to be sent, written or not.
    pub fn has_out(&self) -> bool
        ensures { IsTrue result ↔ (0 < length self.now.out) }
    {
        self.out.has_some()
    }

    /// Drops the first `n` bytes that wait, which were sent, or all if fewer wait.
    pub fn sent(&mut self, n: usize)
        ensures endpoint { self.new.endpoint ≡ self.old.endpoint }
        ensures out { self.new.out ≡ drop n self.old.out }
    {
        self.out.sent(n);
    }

    /// Guesses what the request that begins `at` bytes behind the first unread one asks for, so
    /// that a caller can read memory ahead of its use.
    pub fn peek(&self, at: usize) -> Option<Peeked<'_>> {
        self.feed.peek(at)
    }

    /// Returns the number of unread bytes.
    pub fn unread_len(&self) -> usize
        ensures { result ≡ length self.now.endpoint.reader.unread }
    {
        self.feed.unread_len()
    }

    /// Returns the user of a bound connection; `None` before the login and once it is closed.
    pub fn user(&self) -> Option<UserNo>
        ensures { IfSome result (λ user. self.now.endpoint.phase ≡ Bound user) }
    {
        match self.phase {
            Phase::Bound(user) => Some(user),
            Phase::Unbound | Phase::Closed => None,
        }
    }

    /// Whether the connection is closed.
    pub fn is_closed(&self) -> bool
        ensures { result ≡ is_closed self.now.endpoint.phase }
    {
        matches!(self.phase, Phase::Closed)
    }

    /// Closes the connection. Its output stays to be sent.
    pub fn shut(&mut self)
        ensures endpoint { self.new.endpoint ≡ shut_endpoint text_protocol self.old.endpoint }
        ensures out { self.new.out ≡ self.old.out }
    {
        let _ = self.close();
    }

    /// Closes the connection, and returns that its owner must close it once its output is sent.
    fn close(&mut self) -> Want
        ensures want { want_of result ≡ Close }
        ensures endpoint { self.new.endpoint ≡ shut_endpoint text_protocol self.old.endpoint }
        ensures out { self.new.out ≡ self.old.out }
        ensures reader { self.new.endpoint.reader ≡ self.old.endpoint.reader }
        ensures room { self.new.room ≡ self.old.room }
    {
        self.phase = Phase::Closed;
        Want::Close
    }
}
