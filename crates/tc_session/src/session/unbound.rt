//! Requests of a connection before its login.
ghost use Rattle.std.specs.Prelude.{◌≡◌, ◌≢◌, ◌≤◌, ◌++◌, None, Some, codes};
ghost use Rattle.tc_model.specs.Connection.{Unbound, Nothing};
ghost use Rattle.tc_feed.specs.declared.request.Request.TheVariants.{Ask};
ghost use Rattle.tc_session.specs.SessionView.{want_of, reply_room, needed_room, turn_unbound, turn_login, IsDone};
ghost use Rattle.tc_session.specs.Texts.{unless_quiet};

use super::{Phase, Session};
use crate::Want;
use crate::news::{News, named};
use tc_feed::Request;
use tc_grammar::{Command, Fault, StoreKind};
use tc_users::Users;

impl Session {
    /// Does a request of an unbound connection.
    pub(super) fn serve_unbound(&mut self, users: &Users, request: Option<Request>) -> Want
        requires room { needed_room ≤ self.old.room }
        requires unbound { self.old.endpoint.phase ≡ Unbound }
        ensures done { IsDone (turn_unbound users.now self.old request) self.old self.new result }
        ensures rests { want_of result ≡ Nothing → request ≡ None }
        ensures reader { self.new.endpoint.reader ≡ self.old.endpoint.reader }
        ensures room { reply_room ≤ self.new.room }
    {
        match request {
            None => Want::Nothing,
            Some(Request::Ask(command)) => self.serve_unbound_command(users, &command),
            Some(Request::Refused { fault, quiet }) => {
                self.note_fault(fault);
                self.fail(fault, quiet)
            }
        }
    }

    /// Notes a fault that deserves a line in a log: a block that is too long.
    fn note_fault(&mut self, fault: Fault)
        ensures { self.new ≡ self.old }
    {
        if let Fault::TooLarge = fault {
            self.news = Some(News::LongBlock);
        }
    }

    /// Does a command of an unbound connection: a `set` is a login, `quit` closes, and all others
    /// are refused.
    fn serve_unbound_command(&mut self, users: &Users, command: &Command) -> Want
        requires room { needed_room ≤ self.old.room }
        requires unbound { self.old.endpoint.phase ≡ Unbound }
        ensures done { IsDone (turn_unbound users.now self.old (Some (Ask command.now)))
            self.old self.new result }
        ensures busy { want_of result ≢ Nothing }
        ensures reader { self.new.endpoint.reader ≡ self.old.endpoint.reader }
        ensures room { reply_room ≤ self.new.room }
    {
        match command {
            Command::Quit => return self.close(),
            Command::Store(head, blob) if matches!(head.kind, StoreKind::Set) => {
                self.log_in(users, head.quiet, blob.as_slice());
            }
            _ => self.say_fault(Fault::Unauthenticated, command.is_quiet()),
        }
        Want::Said
    }

    /// Binds the connection to the user whose name and token the data has, or refuses the login.
    fn log_in(&mut self, users: &Users, quiet: bool, text: &[u8])
        requires room { needed_room ≤ self.old.room }
        requires unbound { self.old.endpoint.phase ≡ Unbound }
        ensures endpoint { self.new.endpoint
            ≡ (turn_login users.now self.old quiet text.now).endpoint }
        ensures said { self.new.out ≡ self.old.out
            ++ (turn_login users.now self.old quiet text.now).said }
        ensures reader { self.new.endpoint.reader ≡ self.old.endpoint.reader }
        ensures room { reply_room ≤ self.new.room }
    {
        match users.login(text) {
            None => {
                self.news = Some(News::LoginRefused(named(users, text)));
                self.say_fault(Fault::AuthenticationFailure, quiet);
            }
            Some(user) => {
                self.phase = Phase::Bound(user);
                self.say_stored(quiet);
            }
        }
    }

    /// Appends that a login succeeded, unless it is quiet.
    fn say_stored(&mut self, quiet: bool)
        requires { needed_room ≤ self.old.room }
        ensures endpoint { self.new.endpoint ≡ self.old.endpoint }
        ensures said { self.new.out ≡ self.old.out ++ unless_quiet quiet (codes "STORED\r\n") }
        ensures room { reply_room ≤ self.new.room }
    {
        if !quiet {
            self.out.write(b"STORED\r\n");
        }
    }
}
