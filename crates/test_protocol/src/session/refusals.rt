//! Commands that are refused memory, and commands that are passed over.
ghost use Rattle.std.specs.Prelude.{◌≤◌};

use super::{expect_out, expect_wanted, next, opened, push, wanted, wanted_of};
use crate::fixtures::{expect_number, users};
use crate::session::table::{DECLINED, REFUSALS, Reply, Wanted};
use std::alloc::Global;
use std::process::Abort;
use std::test::Fail;
use tc_item::NoMemory;
use tc_session::{Declined, News, Session, Want};
use tc_users::Users;

/// Refuses the call that a request wants, if it wants one.
fn refuse(session: &mut Session, want: &Want)
    requires { 64 ≤ session.old.room }
{
    if let Want::Call(_, command) = want {
        session.refuse(command);
    }
}

/// Refuses the next request.
fn refuse_next(alloc: Global, session: &mut Session, users: &Users) -> Result<(), NoMemory> {
    match next(alloc, session, users) {
        Ok(want) => refuse(session, &want),
        Err(NoMemory) => return Err(NoMemory),
    }
    Ok(())
}

/// Refuses a command, and expects its reply.
fn expect_refused(
    rt: &(impl AllocGlobal + Abort),
    session: &mut Session,
    users: &Users,
    reply: &Reply,
) -> Result<(), NoMemory> {
    let (said, out) = *reply;
    push(session, said.as_bytes())?;
    refuse_next(rt.alloc(), session, users)?;
    expect_out(rt, session, out.as_bytes(), said);
    Ok(())
}

/// Refuses each command on a new connection of alice's, and expects its reply.
fn expect_each_refused(
    rt: &(impl AllocGlobal + Abort),
    users: &Users,
    replies: &[Reply],
) -> Result<(), NoMemory> {
    for reply in replies {
        let mut session = opened(rt.alloc(), users)?;
        expect_refused(rt, &mut session, users, reply)?;
    }
    Ok(())
}

/// Guards clients when memory is short: each command that waits for a reply gets one, and a quiet
/// one gets none.
#[test]
fn a_refusal_is_said_unless_the_line_is_quiet(rt: HostRuntime) -> Result<(), Fail> {
    let users = users(rt.alloc())?;
    expect_each_refused(&rt, &users, &REFUSALS)?;
    Ok(())
}

/// Declines the next request of a bound connection, and once more if memory was refused.
fn decline(alloc: Global, session: &mut Session) -> Result<Option<Want>, NoMemory> {
    let Some(user) = session.user() else {
        return Err(NoMemory)
    };
    match session.decline(alloc, user) {
        Ok(want) => Ok(want),
        Err(NoMemory) => session.decline(alloc, user),
    }
}

/// Declines a command, and expects its reply. The command after it must still be there.
fn expect_declined(
    rt: &(impl AllocGlobal + Abort),
    users: &Users,
    reply: &Reply,
) -> Result<(), NoMemory> {
    let mut session = opened(rt.alloc(), users)?;
    expect_passed_over(rt, &mut session, reply)?;
    expect_behind(rt, &mut session, users, reply.0)
}

/// Declines the next request. Returns whether nothing is wanted of it.
fn is_declined(alloc: Global, session: &mut Session) -> Result<bool, NoMemory> {
    Ok(decline(alloc, session)?.is_none())
}

/// Pushes two commands and declines the first. Expects its reply, and news for the operator.
fn expect_passed_over(
    rt: &(impl AllocGlobal + Abort),
    session: &mut Session,
    reply: &Reply,
) -> Result<(), NoMemory> {
    let (said, out) = *reply;
    push(session, said.as_bytes())?;
    push(session, b"get k\r\n")?;
    assert!(rt; is_declined(rt.alloc(), session)?, "{said}");
    expect_out(rt, session, out.as_bytes(), said);
    assert_eq!(rt; session.take_news(), Some(News::NoMemory), "{said}");
    Ok(())
}

/// Expects the second command to be still there.
fn expect_behind(
    rt: &(impl AllocGlobal + Abort),
    session: &mut Session,
    users: &Users,
    said: &str,
) -> Result<(), NoMemory> {
    let behind = wanted(rt.alloc(), session, users)?;
    expect_wanted(rt, behind, Wanted::Alices, said);
    Ok(())
}

/// Declines each command on a new connection of alice's, and expects its reply.
fn expect_each_declined(
    rt: &(impl AllocGlobal + Abort),
    users: &Users,
    replies: &[Reply],
) -> Result<(), NoMemory> {
    for reply in replies {
        expect_declined(rt, users, reply)?;
    }
    Ok(())
}

/// Guards a connection when memory stays short: it must go on with the next command and not hang on
/// one.
#[test]
fn a_declined_command_is_passed_over_and_its_refusal_said(rt: HostRuntime) -> Result<(), Fail> {
    let users = users(rt.alloc())?;
    expect_each_declined(&rt, &users, &REFUSALS)?;
    expect_each_declined(&rt, &users, &DECLINED)?;
    Ok(())
}

/// Guards a `set` whose block is still arriving: its bytes must stay, or the rest would run as
/// commands.
#[test]
fn a_request_that_is_not_whole_is_not_declined(rt: HostRuntime) -> Result<(), Fail> {
    let users = users(rt.alloc())?;
    let mut session = opened(rt.alloc(), &users)?;
    expect_kept(&rt, &mut session)?;
    Ok(())
}

/// Declines a request that is not whole, and expects an error and all its bytes unread.
fn expect_kept(rt: &(impl AllocGlobal + Abort), session: &mut Session) -> Result<(), NoMemory> {
    push(session, b"set k 0 0 5\r\nab")?;
    assert!(rt; decline(rt.alloc(), session).is_err());
    expect_number(rt, session.unread_len() as u64, 15, "kept");
    Ok(())
}

/// Asks for the next request, as a first try or as a retry after a refusal of memory, and expects
/// it.
fn expect_asked(rt: &(impl AllocGlobal + Abort), is_retry: bool) -> Result<(), Fail> {
    let users = users(rt.alloc())?;
    let mut session = opened(rt.alloc(), &users)?;
    let want = asked(rt.alloc(), &mut session, &users, is_retry)?;
    expect_wanted(rt, want, Wanted::Alices, "asked");
    Ok(())
}

/// Pushes a `get` and asks for it. Returns what it wants.
fn asked(
    alloc: Global,
    session: &mut Session,
    users: &Users,
    is_retry: bool,
) -> Result<Wanted, NoMemory> {
    push(session, b"get k\r\n")?;
    let asked = session.ask(alloc, users, is_retry, &mut Declined::new())?;
    Ok(asked.as_ref().map_or(Wanted::Nothing, wanted_of))
}

/// Guards a command whose second try finds memory: it must be done, not declined.
#[test]
fn a_request_is_declined_only_where_memory_is_refused(rt: HostRuntime) -> Result<(), Fail> {
    expect_asked(&rt, false)?;
    expect_asked(&rt, true)
}
