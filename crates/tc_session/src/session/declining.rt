//! Skips a request for which there is no memory.
ghost use Rattle.std.specs.Prelude.{◌≡◌, ◌≢◌, ◌≤◌, List, length, Some, IfOk, IfSome, OnOk, OnErr};
ghost use Rattle.tc_model.specs.Connection.{turn, Bound, Nothing};
ghost use Rattle.tc_feed.specs.Passing.{passed_of};
ghost use Rattle.tc_feed.specs.declared.request.Request.{Request as AnyRequest};
ghost use Rattle.tc_session.specs.Declines.{IsPassed, IsAsked};
ghost use Rattle.tc_session.specs.SessionView.{want_of, reply_room, needed_room, turn_bound, next_turn};
ghost use Rattle.tc_session.specs.TextProtocol.{text_protocol};
ghost use Rattle.tc_users.specs.declared.users.UserSpec.{UserSpec};

use super::{NEEDED_ROOM, Session};
use crate::Want;
use crate::declined::Declined;
use crate::news::News;
use std::alloc::Global;
use tc_feed::Passed;
use tc_grammar::Fault;
use tc_item::{LARGEST_ITEM, NoMemory};
use tc_users::UserNo;

impl Session {
    /// Skips the next whole request of the connection of `user`, with its block. A command is not
    /// done, and the result is `None`. Its reply is `SERVER_ERROR out of memory`, unless its line
    /// has `noreply`. It handles `quit` and faults as `next` does.
    ///
    /// The only memory it takes is room for what it says. It fails if that is refused, or no whole
    /// request is there; then nothing changes.
    pub fn decline(&mut self, alloc: Global, user: UserNo) -> Result<Option<Want>, NoMemory>
        requires bound { self.old.endpoint.phase ≡ Bound user }
        ensures passed { IfOk result (IsPassed user (next_turn user self.old) self.old self.new) }
        ensures endpoint { OnOk result (self.new.endpoint ≡ (next_turn user self.old).endpoint) }
        ensures busy { IfOk result (λ asked. IfSome asked (λ want. want_of want ≢ Nothing)) }
        ensures room { OnOk result (reply_room ≤ self.new.room) }
        ensures no_longer { length self.new.endpoint.reader.unread
            ≤ length self.old.endpoint.reader.unread }
        ensures endpoint_on_err { OnErr result (self.new.endpoint ≡ self.old.endpoint) }
        ensures out_on_err { OnErr result (self.new.out ≡ self.old.out) }
    {
        self.out.reserve(NEEDED_ROOM)?;
        match self.feed.pass_over(alloc, LARGEST_ITEM) {
            None => Err(NoMemory),
            Some(passed) => Ok(self.answer_passed(user, passed)),
        }
    }

    /// Declines a bound connection's next request as `decline` does, and lists it. Fails if the
    /// connection is not bound.
    pub(super) fn decline_listed(
        &mut self,
        alloc: Global,
        declined: &mut Declined,
    ) -> Result<Option<Want>, NoMemory>
        ensures asked { (rows : List UserSpec) → IfOk result
            (IsAsked (turn text_protocol rows self.old.endpoint) self.old self.new declined.old
            declined.new) }
        ensures endpoint { (rows : List UserSpec) → OnOk result (self.new.endpoint
            ≡ (turn text_protocol rows self.old.endpoint).endpoint) }
        ensures busy { IfOk result (λ asked. IfSome asked (λ want. want_of want ≢ Nothing)) }
        ensures room { OnOk result (reply_room ≤ self.new.room) }
        ensures no_longer { length self.new.endpoint.reader.unread
            ≤ length self.old.endpoint.reader.unread }
        ensures endpoint_on_err { OnErr result (self.new.endpoint ≡ self.old.endpoint) }
        ensures out_on_err { OnErr result (self.new.out ≡ self.old.out) }
        ensures declined_on_err { OnErr result (declined.new ≡ declined.old) }
    {
        let Some(user) = self.user() else {
            return Err(NoMemory)
        };
        let listed = declined.and(&self.feed, user);
        match self.decline(alloc, user)? {
            Some(want) => Ok(Some(want)),
            None => {
                *declined = listed;
                Ok(None)
            }
        }
    }

    /// Answers a request of this user that was skipped; `None` for a command.
    fn answer_passed(&mut self, user: UserNo, passed: Passed) -> Option<Want>
        requires room { needed_room ≤ self.old.room }
        requires bound { self.old.endpoint.phase ≡ Bound user }
        ensures passed { (request : AnyRequest) → passed_of request ≡ passed
            → IsPassed user (turn_bound user self.old (Some request)) self.old self.new result }
        ensures endpoint { (request : AnyRequest) → passed_of request ≡ passed
            → self.new.endpoint ≡ (turn_bound user self.old (Some request)).endpoint }
        ensures busy { IfSome result (λ want. want_of want ≢ Nothing) }
        ensures reader { self.new.endpoint.reader ≡ self.old.endpoint.reader }
        ensures room { reply_room ≤ self.new.room }
    {
        match passed {
            Passed::Command { quiet } => {
                self.news = Some(News::NoMemory);
                self.say_fault(Fault::NoMemory, quiet);
                None
            }
            Passed::Quit => Some(self.close()),
            Passed::Refused { fault, quiet } => Some(self.fail(fault, quiet)),
        }
    }
}
