//! Tests of what no clause says of connections and no socket shows: news for the operator, waiting
//! output, requests read ahead, and each call with memory to spare. A call that is refused memory
//! is made again. Logins and reply texts are in examples/sessions.rows and examples/scripts.rows.
ghost use Rattle.std.specs.Prelude.{◌≤◌, OnOk};

mod later;
mod refusals;
mod replies;
mod shared;
mod table;

use crate::fixtures::{expect_bytes, expect_number, users};
use std::alloc::Global;
use std::process::Abort;
use std::test::Fail;
use table::{SHUT, State, Step, Turn, UNSENT, Wanted};
use tc_item::NoMemory;
use tc_session::{News, Session, Want};
use tc_users::{UserNo, Users};

/// Pushes a piece, and once more if memory was refused.
fn push(session: &mut Session, piece: &[u8]) -> Result<(), NoMemory> {
    match session.push(piece) {
        Ok(()) => Ok(()),
        Err(NoMemory) => session.push(piece),
    }
}

/// Returns what the next request wants. Looks once more if memory was refused.
fn next(alloc: Global, session: &mut Session, users: &Users) -> Result<Want, NoMemory>
    ensures { OnOk result (64 ≤ session.new.room) }
{
    match session.next(alloc, users) {
        Ok(want) => Ok(want),
        Err(NoMemory) => session.next(alloc, users),
    }
}

/// Returns whose cache a command is for.
fn owner_of(user: UserNo) -> Wanted {
    match user.number() {
        1 => Wanted::Alices,
        2 => Wanted::Bobs,
        _ => Wanted::Unknown,
    }
}

/// Returns what a request wants, without the command.
fn wanted_of(want: &Want) -> Wanted {
    match want {
        Want::Nothing => Wanted::Nothing,
        Want::Said => Wanted::Said,
        Want::Call(user, _) => owner_of(*user),
        Want::Close => Wanted::Close,
    }
}

/// Returns what the next request wants, without the command.
fn wanted(alloc: Global, session: &mut Session, users: &Users) -> Result<Wanted, NoMemory>
    ensures { OnOk result (64 ≤ session.new.room) }
{
    match next(alloc, session, users) {
        Ok(want) => Ok(wanted_of(&want)),
        Err(NoMemory) => Err(NoMemory),
    }
}

/// Returns a connection bound to alice, with nothing to send.
fn opened(alloc: Global, users: &Users) -> Result<Session, NoMemory> {
    let mut session = Session::new(alloc);
    bind(alloc, &mut session, users)?;
    Ok(session)
}

/// Logs alice in, with a quiet `set`.
fn bind(alloc: Global, session: &mut Session, users: &Users) -> Result<(), NoMemory> {
    push(session, b"set auth 0 0 9 noreply\r\nalice one\r\n")?;
    wanted(alloc, session, users)?;
    Ok(())
}

/// Expects a request to want this.
fn expect_wanted(rt: &impl Abort, got: Wanted, want: Wanted, at: &str) {
    assert_eq!(rt; got, want, "{at}");
}

/// Expects these bytes to wait, in one slice.
fn expect_out(rt: &impl Abort, session: &Session, out: &[u8], at: &str) {
    let (first, behind) = session.parts().split_first();
    expect_bytes(rt, first, out, at);
    assert!(rt; behind.is_empty(), "{at}");
}

/// Pushes a turn's piece, and expects what the next request wants and what waits to be sent after
/// it.
fn expect_turn(
    rt: &(impl AllocGlobal + Abort),
    session: &mut Session,
    users: &Users,
    turn: &Turn,
) -> Result<(), NoMemory> {
    let (said, want, out) = *turn;
    push(session, said.as_bytes())?;
    let got = wanted(rt.alloc(), session, users)?;
    expect_wanted(rt, got, want, said);
    expect_out(rt, session, out.as_bytes(), said);
    Ok(())
}

/// Says something on a new connection, and expects this news once.
fn expect_news(
    rt: &(impl AllocGlobal + Abort),
    users: &Users,
    said: &str,
    news: Option<News>,
) -> Result<(), NoMemory> {
    hear_news(rt, &mut Session::new(rt.alloc()), users, said, news)
}

/// Says something on this connection, and expects this news once.
fn hear_news(
    rt: &(impl AllocGlobal + Abort),
    session: &mut Session,
    users: &Users,
    said: &str,
    news: Option<News>,
) -> Result<(), NoMemory> {
    push(session, said.as_bytes())?;
    wanted(rt.alloc(), session, users)?;
    assert_eq!(rt; session.take_news(), news, "{said}");
    assert_eq!(rt; session.take_news(), None, "{said}");
    Ok(())
}

/// Returns the news of a refused login that named the user with this number, or nobody.
fn refused_login(user: Option<u32>) -> Option<News> {
    match user {
        Some(user) => Some(News::LoginRefused(Some(UserNo::new(user)))),
        None => Some(News::LoginRefused(None)),
    }
}

/// Says a login on each of several new connections, and expects its news.
fn expect_told(rt: &(impl AllocGlobal + Abort), users: &Users) -> Result<(), NoMemory> {
    expect_news(
        rt,
        users,
        "set a 0 0 9\r\nalice two\r\n",
        refused_login(Some(1)),
    )?;
    expect_news(
        rt,
        users,
        "set a 0 0 9\r\none alice\r\n",
        refused_login(None),
    )?;
    expect_news(rt, users, "set a 0 0 5\r\nalice\r\n", refused_login(None))?;
    expect_news(rt, users, "set a 0 0 9\r\nalice one\r\n", None)?;
    expect_news(rt, users, "set a 0 0 257\r\n", Some(News::LongBlock))
}

/// Guards the operator's log: a wrong token must be counted against the user whose name came with
/// it.
#[test]
fn a_refused_login_is_told_by_its_user(rt: HostRuntime) -> Result<(), Fail> {
    let users = users(rt.alloc())?;
    expect_told(&rt, &users)?;
    Ok(())
}

/// Reads a request ahead, which leaves it unread, and asks for it.
fn expect_ahead(
    rt: &(impl AllocGlobal + Abort),
    session: &mut Session,
    users: &Users,
) -> Result<(), NoMemory> {
    push(session, b"get k\r\n")?;
    session.read_ahead(rt.alloc());
    expect_number(rt, session.unread_len() as u64, 7, "read ahead");
    let asked = wanted(rt.alloc(), session, users)?;
    expect_wanted(rt, asked, Wanted::Alices, "asked for");
    expect_number(rt, session.unread_len() as u64, 0, "asked for");
    Ok(())
}

/// Guards requests that were read ahead: each must be done once, neither dropped nor doubled.
#[test]
fn a_request_that_was_read_ahead_is_taken_when_it_is_asked_for(
    rt: HostRuntime,
) -> Result<(), Fail> {
    let users = users(rt.alloc())?;
    let mut session = opened(rt.alloc(), &users)?;
    expect_ahead(&rt, &mut session, &users)?;
    Ok(())
}

/// Returns whether the connection is open or closed.
fn state_of(session: &Session) -> State {
    if session.is_closed() {
        State::Closed
    } else {
        State::Open
    }
}

/// Expects a connection to be in this state, with `kept` bytes unread.
fn expect_state(rt: &impl Abort, session: &Session, state: State, kept: u64, at: &str) {
    assert_eq!(rt; state_of(session), state, "{at}");
    expect_number(rt, session.unread_len() as u64, kept, at);
}

/// Takes each step: sends its bytes, takes its turn, and expects the state after it.
fn expect_steps(
    rt: &(impl AllocGlobal + Abort),
    session: &mut Session,
    users: &Users,
    steps: &[Step],
) -> Result<(), NoMemory> {
    for (sent, turn, state, kept) in steps {
        session.sent(*sent);
        expect_turn(rt, session, users, turn)?;
        expect_state(rt, session, *state, *kept, turn.0);
    }
    Ok(())
}

/// Takes steps, shuts the connection with a whole line unread, and takes further steps.
fn expect_shut(
    rt: &(impl AllocGlobal + Abort),
    session: &mut Session,
    users: &Users,
    before: &[Step],
    after: &[Step],
) -> Result<(), NoMemory> {
    expect_steps(rt, session, users, before)?;
    push(session, b"\r\n")?;
    session.shut();
    expect_steps(rt, session, users, after)
}

/// Guards replies that a socket takes in pieces: no byte may be sent twice or skipped. A shut
/// connection must do no further request.
#[test]
fn what_was_sent_is_given_up_and_the_rest_waits(rt: HostRuntime) -> Result<(), Fail> {
    let users = users(rt.alloc())?;
    let mut session = Session::new(rt.alloc());
    expect_shut(&rt, &mut session, &users, &UNSENT, &SHUT)?;
    Ok(())
}
