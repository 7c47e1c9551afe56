//! A connection's requests: each is read, done, and answered.
ghost use Rattle.std.specs.Prelude.{◌≡◌, ◌≢◌, ◌≤◌, ℕ, List, [], true, false};
ghost use Rattle.std.specs.Prelude.{Some, IsSome};
ghost use Rattle.tc_model.specs.Connection.{is_closed};
ghost use Rattle.tc_grammar.specs.declared.command.Command.TheVariants.{Quit};
ghost use Rattle.tc_session.specs.SessionView.{reply_room};
ghost use Rattle.tc_links.specs.Talks.{Talks, Answers};

use crate::admitted::Admitted;
use crate::desk::Desk;
use crate::gate::{Gate, Stage};
use crate::link::Link;
use crate::order::number_after;
use crate::pace::Pace;
use crate::service::Service;
use crate::wire::{Remark, Wire};
use crate::work::Work;
use std::sync::Wait;
use tc_fairness::SHARE;
use tc_grammar::Command;
use tc_item::Moment;
use tc_locked::{Clock, Lease, Naming};
use tc_plain::Cache;
use tc_session::{News, Want};
use tc_users::UserNo;

/// The most requests in a turn.
pub(crate) const REQUESTS: u32 = 16;

/// A connection with more bytes to send than this writes right after its requests. Fewer wait until
/// the other connections' requests are done too.
const EARLY_OUT: usize = 131_072;

impl<W: Wire + Drop> Link<W> {
    /// The second part of a turn: does requests, and writes if much waits to be sent. Each command
    /// is one call of the hall, and a turn has at most 16. Returns whether the connection goes on.
    pub(crate) fn do_requests<'a, R: Wait, C: Cache, N: Naming, G: Gate>(
        &mut self,
        service: &Service<'a, R, C, N, G>,
        desk: &mut Desk<N>,
        lease: &mut Lease<'a, C, N>,
    ) -> bool
        ensures moved { (sent : List ℕ)
            × Talks 16 service.now.users.now sent [] self.old self.new desk.old desk.new }
        ensures ordered { result ≡ true → IsSome self.old.last → IsSome self.new.last }
    {
        self.work = Work::none();
        if self.guesses.waits() {
            return true;
        }
        let served = self.serve(service, desk, lease);
        self.tell(service);
        self.pace = self.pace.and(served);
        if !self.is_ordered() {
            return false;
        }
        if self.keeps_out() {
            return true;
        }
        // The worker holds no lock while it writes to a socket.
        lease.release();
        self.send()
    }

    /// Whether its calls were entered in the order in which it made them.
    fn is_ordered(&self) -> bool
        ensures { result ≡ true → IsSome self.now.last }
    {
        self.last.is_some()
    }

    /// Whether its output waits for the last part of the turn.
    fn keeps_out(&self) -> bool {
        self.session.about_out() <= EARLY_OUT || self.guesses.waits()
    }

    /// Does up to 16 requests. It stops if none is whole, a share of work is done, it is full, a
    /// reply is held back, or it must be admitted again. The first request needs no new admission,
    /// so that the connection makes progress.
    fn serve<'a, R: Wait, C: Cache, N: Naming, G: Gate>(
        &mut self,
        service: &Service<'a, R, C, N, G>,
        desk: &mut Desk<N>,
        lease: &mut Lease<'a, C, N>,
    ) -> Pace
        ensures moved { Talks 16 service.now.users.now [] [] self.old self.new desk.old desk.new }
    {
        let mut pace = Pace::Rests;
        for _ in 0..REQUESTS {
            if self.rests || self.session.is_closed() || self.is_full() || self.pauses() {
                return pace;
            }
            if pace == Pace::GetsOn && self.is_to_be_admitted(service.clock) {
                return pace;
            }
            if !self.ask(service, desk, lease) {
                return pace.and(Pace::Tries);
            }
            pace = Pace::GetsOn;
        }
        pace
    }

    /// Whether others go first, or a reply is held back.
    fn pauses(&self) -> bool {
        self.work.units() >= SHARE || self.guesses.waits()
    }

    /// Whether what is unread is for another turn: since its admission it logged in, or the clock
    /// went on.
    fn is_to_be_admitted(&self, clock: &Clock) -> bool {
        let Admitted { user, now, .. } = self.admitted;
        self.session.unread_len() > 0 && (self.user() != user || clock.now() != now)
    }

    /// Reads one request and does it. It declines a command to which memory is refused twice.
    /// Returns whether memory sufficed for the request, or for declining it.
    fn ask<'a, R: Wait, C: Cache, N: Naming, G: Gate>(
        &mut self,
        service: &Service<'a, R, C, N, G>,
        desk: &mut Desk<N>,
        lease: &mut Lease<'a, C, N>,
    ) -> bool
        requires { is_closed self.old.session.endpoint.phase ≡ false }
        ensures moved { Talks 1 service.now.users.now [] [] self.old self.new desk.old desk.new }
    {
        let kept = self.session.unread_len();
        // Memory may be there in the next turn. The client should not wait longer than that.
        let is_retry = self.refused.is_some();
        let Ok(asked) = self
            .session
            .ask(service.alloc, service.users, is_retry, &mut desk.declined)
        else {
            self.note_refusal(service.clock.now());
            return false;
        };
        self.refused = None;
        let Some(want) = asked else {
            self.note_answer(service, kept);
            return true;
        };
        match want {
            Want::Nothing => self.rests = true,
            Want::Said | Want::Close => self.note_answer(service, kept),
            Want::Call(user, command) => self.call(service, desk, lease, user, &command),
        }
        true
    }

    /// Notes since when memory is refused to its requests.
    fn note_refusal(&mut self, now: Moment)
        ensures { self.new ≡ self.old }
    {
        if self.refused.is_none() {
            self.refused = Some(now);
        }
    }

    /// Notes an answered request that called no command, before which `kept` bytes were unread.
    fn note_answer<R: Wait, C: Cache, N: Naming, G: Gate>(
        &mut self,
        service: &Service<'_, R, C, N, G>,
        kept: usize,
    )
        ensures { self.new ≡ self.old }
    {
        self.work
            .add_answer(kept.saturating_sub(self.session.unread_len()));
        self.tell(service);
    }

    /// Passes news for the operator to the wire, and counts refused logins. The wire's note may
    /// spin while a lock is held.
    fn tell<R: Wait, C: Cache, N: Naming, G: Gate>(&mut self, service: &Service<'_, R, C, N, G>)
        ensures { self.new ≡ self.old }
    {
        if let Some(news) = self.session.take_news() {
            if let News::LoginRefused(_) = news {
                self.guesses.add(service.clock.now());
            }
            self.wire.note(service.rt, Remark::News(news));
        }
    }

    /// Calls one command, and answers it.
    fn call<'a, R: Wait, C: Cache, N: Naming, G: Gate>(
        &mut self,
        service: &Service<'a, R, C, N, G>,
        desk: &mut Desk<N>,
        lease: &mut Lease<'a, C, N>,
        user: UserNo,
        command: &Command,
    )
        requires room { reply_room ≤ self.old.session.room }
        requires runs { command.now ≢ Quit }
        ensures answers { Answers user command.now self.old self.new desk.old desk.new }
    {
        self.meet(user);
        self.work.add_command(command);
        let gate = service.gate;
        gate.pass(user, Stage::Before);
        let called = service.hall.call_with(
            service.rt,
            service.alloc,
            &mut desk.seat,
            &mut desk.refusals,
            lease,
            user,
            self.admitted.now,
            self.conn,
            command,
            || gate.pass(user, Stage::Held),
        );
        gate.pass(user, Stage::After);
        let Ok(receipt) = called else {
            // The protocol has one text for a command that was not done. Memory may be there for
            // the next one; a worn book does none again. No server sees `NoUser` or `OtherBook`:
            // its hall has the table by which its sessions log in, and keeps all its books.
            self.session.refuse(command);
            return;
        };
        self.last = number_after(self.last, receipt.slip.number);
        // With nothing unread there is no request to read.
        self.rests = self.session.unread_len() == 0;
        // The session writes the reply once no lock is held. If it has no memory for that, it says
        // so itself.
        let _ = self.session.answer_later(command, receipt.slip.outcome);
    }
}
