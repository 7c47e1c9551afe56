//! Helpers of several test modules: comparisons, commands, hits and users.

use std::alloc::Global;
use std::process::Abort;
use std::test::Fail;
use tc_feed::{Feed, Request};
use tc_grammar::Command;
use tc_item::{Blob, Key, NoMemory};
use tc_stats::{Hit, Hits};
use tc_users::{Text, UserSpec, Users};

/// Expects a text. A failure names `at`.
pub fn expect_text(rt: &impl Abort, got: &str, want: &str, at: &str) {
    assert_eq!(rt; got, want, "{at}");
}

/// Expects bytes. A failure names `at`.
pub fn expect_bytes(rt: &impl Abort, got: &[u8], want: &[u8], at: &str) {
    assert_eq!(rt; got, want, "{at}");
}

/// Expects a number. A failure names `at`.
pub fn expect_number(rt: &impl Abort, got: u64, want: u64, at: &str) {
    assert_eq!(rt; got, want, "{at}");
}

/// Returns a request's command. Fails if it is no command or there is no request.
fn ask(request: Option<Request>) -> Result<Command, Fail> {
    match request {
        Some(Request::Ask(command)) => Ok(command),
        _ => Err("no command".into()),
    }
}

/// Returns the command that a stream begins with, if a block may have 16 bytes. Fails if there is
/// none.
pub fn command(alloc: Global, stream: &str) -> Result<Command, Fail> {
    let mut feed = Feed::new(alloc);
    feed.push(stream.as_bytes())?;
    match feed.next(alloc, 16) {
        Ok(request) => ask(request),
        Err(NoMemory) => Err("out of memory".into()),
    }
}

/// Returns a hit.
pub fn hit(alloc: Global, name: &str, data: &str, flags: u32, cas: u64) -> Result<Hit, Fail> {
    let key = Key::new(alloc, name.as_bytes())?;
    let blob = Blob::new(alloc, Vec::from_slice(alloc, data.as_bytes())?)?;
    Ok(Hit {
        key,
        flags,
        blob,
        cas,
    })
}

/// A hit's key, data, flags and cas number.
pub type Found = (&'static str, &'static str, u32, u64);

/// Appends a hit.
pub fn push_hit(alloc: Global, hits: &mut Hits, found: &Found) -> Result<(), Fail> {
    let (name, data, flags, cas) = *found;
    let hit = hit(alloc, name, data, flags, cas)?;
    hits.push(alloc, hit)?;
    Ok(())
}

/// Returns these hits, in this order.
pub fn hits(alloc: Global, found: &[Found]) -> Result<Hits, Fail> {
    let mut hits = Hits::new();
    for hit in found {
        push_hit(alloc, &mut hits, hit)?;
    }
    Ok(hits)
}

/// Returns a user's row with the least budget, 65,536 bytes, and the usual largest item, 1,048,576
/// bytes.
pub fn row(alloc: Global, name: &[u8], token: &[u8]) -> Result<UserSpec, Fail> {
    let name = Text::copy(alloc, name)?;
    let token = Text::copy(alloc, token)?;
    Ok(UserSpec {
        name,
        token,
        second: None,
        budget: 65_536,
        largest: 1_048_576,
    })
}

/// Returns the row of bob, who has a second token.
fn bob(alloc: Global) -> Result<UserSpec, Fail> {
    let mut bob = row(alloc, b"bob", b"two")?;
    bob.second = Some(Text::copy(alloc, b"zwei")?);
    Ok(bob)
}

/// Returns the rows of alice, user 1, and of bob, user 2.
fn rows(alloc: Global) -> Result<Vec<UserSpec>, Fail> {
    let mut rows = Vec::new(alloc);
    rows.push(row(alloc, b"alice", b"one")?)?;
    rows.push(bob(alloc)?)?;
    Ok(rows)
}

/// Returns the table of alice and bob.
pub fn users(alloc: Global) -> Result<Users, Fail> {
    Ok(Users::build(rows(alloc)?)?)
}
