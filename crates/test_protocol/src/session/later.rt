//! Replies that the session writes later. Texts are by hand from doc/protocol.txt.
ghost use Rattle.std.specs.Prelude.{◌≤◌};

use super::shared::found;
use super::{expect_out, expect_wanted, next, opened, push, wanted};
use crate::fixtures::users;
use crate::session::table::Wanted;
use std::alloc::Global;
use std::process::Abort;
use std::test::Fail;
use tc_item::NoMemory;
use tc_session::{Session, Want, can_end};
use tc_stats::Outcome;
use tc_users::Users;

/// Answers the next request later, if it is a command that can have this outcome.
fn answer_next_later(
    alloc: Global,
    session: &mut Session,
    users: &Users,
    outcome: Outcome,
) -> Result<(), NoMemory> {
    let Want::Call(_, command) = next(alloc, session, users)? else {
        return Ok(());
    };
    if can_end(&command, &outcome) {
        session.answer_later(&command, outcome)?;
    }
    Ok(())
}

/// Answers the next request later with a hit of `size` bytes under this key.
fn find_later(
    alloc: Global,
    session: &mut Session,
    users: &Users,
    name: &str,
    size: usize,
) -> Result<(), Fail> {
    let outcome = found(alloc, &[name], size)?;
    answer_next_later(alloc, session, users, outcome)?;
    Ok(())
}

/// Guards clients that send several commands at once: replies must come in the order asked.
#[test]
fn replies_that_are_written_later_keep_their_order(rt: HostRuntime) -> Result<(), Fail> {
    let users = users(rt.alloc())?;
    let mut session = opened(rt.alloc(), &users)?;
    expect_order(&rt, &mut session, &users)
}

/// Answers two look-ups later. Expects that they wait unwritten until the next request, and that
/// its reply follows theirs.
fn expect_order(
    rt: &(impl AllocGlobal + Abort),
    session: &mut Session,
    users: &Users,
) -> Result<(), Fail> {
    push(session, b"get k\r\ngets l\r\nno\r\n")?;
    find_later(rt.alloc(), session, users, "k", 1)?;
    find_later(rt.alloc(), session, users, "l", 2)?;
    assert!(rt; session.has_out() && session.parts().is_empty());
    let said = wanted(rt.alloc(), session, users)?;
    expect_wanted(rt, said, Wanted::Said, "no");
    let out = b"VALUE k 7 1\r\nd\r\nEND\r\nVALUE l 7 2 1\r\ndd\r\nEND\r\nERROR\r\n";
    expect_out(rt, session, out, "written");
    Ok(())
}

/// Guards a client's last reply: it must go out though no request follows it.
#[test]
fn a_reply_that_is_written_later_waits_to_be_sent(rt: HostRuntime) -> Result<(), Fail> {
    let users = users(rt.alloc())?;
    let mut session = opened(rt.alloc(), &users)?;
    expect_settled(&rt, &mut session, &users)
}

/// Answers a look-up later, settles the session, and expects the reply to wait.
fn expect_settled(
    rt: &(impl AllocGlobal + Abort),
    session: &mut Session,
    users: &Users,
) -> Result<(), Fail> {
    push(session, b"get k\r\n")?;
    find_later(rt.alloc(), session, users, "k", 1)?;
    session.settle();
    expect_out(rt, session, b"VALUE k 7 1\r\nd\r\nEND\r\n", "settled");
    Ok(())
}
