//! Replies to outcomes that no script reaches. Texts are by hand from doc/protocol.txt.
ghost use Rattle.std.specs.Prelude.{◌≡◌, ◌≤◌, true};
ghost use Rattle.tc_session.specs.Replies.{can_end};

use super::{expect_out, expect_wanted, next, opened, push, wanted, wanted_of};
use crate::fixtures::users;
use crate::session::table::{FOUND, LOOK_UPS, Reply, WORN, Wanted};
use crate::stats::look_up;
use std::process::Abort;
use std::test::Fail;
use tc_grammar::Command;
use tc_item::NoMemory;
use tc_session::{Session, Want, can_end};
use tc_stats::Outcome;
use tc_users::Users;

/// Answers a command. If memory is refused, expects the reply to say so, sends it, and answers once
/// more.
fn answer(
    rt: &(impl AllocGlobal + Abort),
    session: &mut Session,
    users: &Users,
    command: &Command,
    outcome: &Outcome,
) -> Result<(), NoMemory>
    requires room { 64 ≤ session.old.room }
    requires can_end { can_end command.now outcome.now ≡ true }
{
    if session.answer(command, outcome).is_ok() {
        return Ok(());
    }
    let refused = b"SERVER_ERROR out of memory\r\n";
    expect_out(rt, session, refused, "refused");
    session.sent(28);
    wanted(rt.alloc(), session, users)?;
    session.answer(command, outcome)
}

/// Answers a request with this outcome if it wants a call of a cache. Returns what it wants.
fn serve(
    rt: &(impl AllocGlobal + Abort),
    session: &mut Session,
    users: &Users,
    want: &Want,
    outcome: &Outcome,
) -> Result<Wanted, NoMemory>
    requires { 64 ≤ session.old.room }
{
    if let Want::Call(_, command) = want {
        assert!(rt; can_end(command, outcome));
        answer(rt, session, users, command, outcome)?;
    }
    Ok(wanted_of(want))
}

/// Answers the next request with this outcome if it wants a call of a cache. Returns what it wants.
pub(super) fn serve_next(
    rt: &(impl AllocGlobal + Abort),
    session: &mut Session,
    users: &Users,
    outcome: &Outcome,
) -> Result<Wanted, NoMemory> {
    match next(rt.alloc(), session, users) {
        Ok(want) => serve(rt, session, users, &want, outcome),
        Err(NoMemory) => Err(NoMemory),
    }
}

/// Pushes a command of alice's, answers it with an outcome, and expects its reply.
fn expect_reply(
    rt: &(impl AllocGlobal + Abort),
    session: &mut Session,
    users: &Users,
    outcome: &Outcome,
    reply: &Reply,
) -> Result<(), NoMemory> {
    let (said, out) = *reply;
    push(session, said.as_bytes())?;
    let got = serve_next(rt, session, users, outcome)?;
    expect_wanted(rt, got, Wanted::Alices, said);
    expect_out(rt, session, out.as_bytes(), said);
    Ok(())
}

/// Answers each command with an outcome, on a new connection of alice's, and expects its reply.
fn expect_each_reply(
    rt: &(impl AllocGlobal + Abort),
    users: &Users,
    outcome: &Outcome,
    replies: &[Reply],
) -> Result<(), NoMemory> {
    for reply in replies {
        let mut session = opened(rt.alloc(), users)?;
        expect_reply(rt, &mut session, users, outcome, reply)?;
    }
    Ok(())
}

/// Expects the replies to an outcome, each command on a new connection of alice's.
fn expect_replies(
    rt: &(impl AllocGlobal + Abort),
    outcome: &Outcome,
    replies: &[Reply],
) -> Result<(), Fail> {
    let users = users(rt.alloc())?;
    expect_each_reply(rt, &users, outcome, replies)?;
    Ok(())
}

/// Guards the client of a cache without cas numbers: it gets a reply of its own, not a wrong
/// number.
#[test]
fn used_up_cas_numbers_are_told(rt: HostRuntime) -> Result<(), Fail> {
    expect_replies(&rt, &Outcome::CasWorn, &WORN)
}

/// Guards data that looks like a reply, and cas numbers of 64 bits, on their way to the client.
#[test]
fn hits_are_shown_in_order_with_cas_numbers_where_asked(rt: HostRuntime) -> Result<(), Fail> {
    expect_replies(&rt, &look_up(rt.alloc(), &FOUND)?, &LOOK_UPS)
}
