//! Addresses that places report, and how the operator's lines are shared out by user.
use std::alloc::Global;
use std::net::{IpAddr, SocketAddr};
use std::process::Abort;
use std::test::*;
use tc_connections::{Cause, Connections, Notice};
use tc_limits::{ConnectionLimits, LimitsByUser, UserLimits};
use tc_users::UserNo;

/// Returns connections for two users, each of whom may have one.
fn open(alloc: Global) -> Result<Connections, Fail> {
    let one = UserLimits {
        connections: Some(1),
        idle_seconds: None,
    };
    let limits = ConnectionLimits {
        login_seconds: None,
        stalled_seconds: None,
        unbound_connections: None,
    };
    let users = LimitsByUser::new(Vec::from_slice(alloc, &[one, one])?);
    Ok(Connections::new(alloc, limits, users)?)
}

/// Adds a connection for each of these users, and logs it in.
fn log_in(rt: &impl Abort, connections: &Connections, users: &[u32]) -> Result<(), Fail> {
    let peer = "10.0.0.7:9".parse::<SocketAddr>()?;
    for user in users {
        let Some(place) = connections.enter(1, peer) else {
            panic!(rt; "no place")
        };
        connections.bind(place, UserNo::new(*user));
    }
    Ok(())
}

/// Returns the notice that this many of a user's notices have no line of their own.
fn left_out(user: u32, cause: Cause, count: u64) -> Notice {
    let user = Some(UserNo::new(user));
    Notice::LeftOut { user, cause, count }
}

/// Guards the operator's log against a user who opens too many connections: one line a second has
/// their number.
#[test]
fn connections_too_many_are_told_by_their_number(rt: HostRuntime) -> Result<(), Fail> {
    let connections = open(rt.alloc())?;
    let mut told = Vec::new(rt.alloc());
    log_in(&rt, &connections, &[1, 1, 2, 1])?;
    connections.take_notices(&rt, &mut told);
    assert!(&rt; told.as_slice() == [left_out(1, Cause::UserFull, 2)].as_slice());
    log_in(&rt, &connections, &[1, 2, 2])?;
    connections.take_notices(&rt, &mut told);
    let both = [
        left_out(2, Cause::UserFull, 2),
        left_out(1, Cause::UserFull, 1),
    ];
    assert!(&rt; told.as_slice() == both.as_slice());
    connections.take_notices(&rt, &mut told);
    assert!(&rt; told.is_empty());
    Ok(())
}

/// Returns the notice of a user's refused login from this port.
fn refused(user: u32, port: u16) -> Result<Notice, Fail> {
    let peer = SocketAddr::new("10.0.0.7".parse::<IpAddr>()?, port);
    let user = Some(UserNo::new(user));
    Ok(Notice::LoginRefused { peer, user })
}

/// Guards the log against one user's noise: of a thousand refused logins of one user four have a
/// line, by turns with those of another user, which came last.
#[test]
fn lines_are_shared_out_by_user(rt: HostRuntime) -> Result<(), Fail> {
    let connections = open(rt.alloc())?;
    let mut told = Vec::new(rt.alloc());
    for port in 1..=1_000 {
        connections.note(&rt, refused(1, port)?);
    }
    for port in 1..=3 {
        connections.note(&rt, refused(2, port)?);
    }
    connections.take_notices(&rt, &mut told);
    let wanted = [
        left_out(1, Cause::LoginRefused, 996),
        refused(1, 1)?,
        refused(2, 1)?,
        refused(1, 2)?,
        refused(2, 2)?,
        refused(1, 3)?,
        refused(2, 3)?,
        refused(1, 4)?,
    ];
    assert!(&rt; told.as_slice() == wanted.as_slice());
    assert!(&rt; connections.left_out() == 996);
    Ok(())
}

/// Guards whoever searches the log for a client: an IPv4 address must look the same on every
/// listener.
#[test]
fn a_place_tells_an_address_of_ipv4_as_such(rt: HostRuntime) -> Result<(), Fail> {
    let connections = open(rt.alloc())?;
    for (came, told) in [
        ("10.0.0.7:9", "10.0.0.7:9"),
        ("[::ffff:10.0.0.7]:65535", "10.0.0.7:65535"),
        ("[2001:db8::7]:9", "[2001:db8::7]:9"),
        ("[::1]:9", "[::1]:9"),
    ] {
        let Some(place) = connections.enter(1, came.parse::<SocketAddr>()?) else {
            panic!(&rt; "no place")
        };
        assert!(&rt;
            connections.peer_at(place) == Some(told.parse::<SocketAddr>()?),
            "{came}"
        );
    }
    Ok(())
}
