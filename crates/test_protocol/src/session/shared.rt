//! Replies whose data is sent from the item's own memory. Texts are by hand from doc/protocol.txt.

use super::replies::serve_next;
use super::table::Wanted;
use super::{expect_wanted, opened, push};
use crate::fixtures::{expect_bytes, expect_number, users};
use std::alloc::Global;
use std::process::Abort;
use std::test::Fail;
use tc_item::{Blob, Key, NoMemory};
use tc_session::Session;
use tc_stats::{Hit, Hits, Outcome};
use tc_users::Users;

/// Returns a hit with `size` bytes `d` of data.
fn hit(alloc: Global, name: &str, size: usize) -> Result<Hit, Fail> {
    let key = Key::new(alloc, name.as_bytes())?;
    let blob = Blob::new(alloc, vec![in alloc; b'd'; size]?)?;
    Ok(Hit {
        key,
        flags: 7,
        blob,
        cas: 1,
    })
}

/// Returns the outcome of a look-up that finds `size` bytes under each of these keys.
pub(super) fn found(alloc: Global, names: &[&str], size: usize) -> Result<Outcome, Fail> {
    let mut hits = Hits::new();
    for name in names {
        hits.push(alloc, hit(alloc, name, size)?)?;
    }
    Ok(Outcome::Values(hits))
}

/// Pushes a look-up on a connection of alice's, and answers it with this outcome.
fn ask(
    rt: &(impl AllocGlobal + Abort),
    session: &mut Session,
    users: &Users,
    said: &str,
    outcome: &Outcome,
) -> Result<(), NoMemory> {
    push(session, said.as_bytes())?;
    let got = serve_next(rt, session, users, outcome)?;
    expect_wanted(rt, got, Wanted::Alices, said);
    Ok(())
}

/// A slice of waiting output: these bytes, or this many bytes `d`.
#[derive(Clone, Copy)]
enum Slice {
    Text(&'static [u8]),
    Data(usize),
}

/// Expects `size` bytes `d`.
fn expect_data(rt: &impl Abort, data: &[u8], size: usize, at: &str) {
    expect_number(rt, data.len() as u64, size as u64, at);
    assert!(rt; data.iter().all(|byte| *byte == b'd'), "{at}");
}

/// Expects bytes to be this slice.
fn expect_slice(rt: &impl Abort, bytes: &[u8], slice: Slice) {
    match slice {
        Slice::Text(text) => expect_bytes(rt, bytes, text, "text"),
        Slice::Data(size) => expect_data(rt, bytes, size, "data"),
    }
}

/// Expects waiting output to begin with these slices. Returns the number of bytes after them.
fn expect_front(rt: &impl Abort, session: &Session, slices: &[Slice]) -> usize {
    let mut parts = session.parts();
    for slice in slices {
        let (first, behind) = parts.split_first();
        expect_slice(rt, first, *slice);
        parts = behind;
    }
    parts.len()
}

/// How many bytes are sent, and the slices that wait after that.
type Sending = (usize, &'static [Slice]);

const VALUE: Slice = Slice::Text(b"VALUE k 7 16384\r\n");

const DATA: Slice = Slice::Data(16_384);

const END: Slice = Slice::Text(b"\r\nEND\r\n");

/// A reply with shared data, sent in pieces: nothing, part of the line, the rest of it, part of the
/// data, the rest of it and one byte more, and more than waits.
const ONE: [Sending; 6] = [
    (0, &[VALUE, DATA, END]),
    (6, &[Slice::Text(b"k 7 16384\r\n"), DATA, END]),
    (11, &[DATA, END]),
    (16_000, &[Slice::Data(384), END]),
    (385, &[Slice::Text(b"\nEND\r\n")]),
    (9, &[]),
];

/// A reply with the data of two hits, sent in pieces: nothing, the first hit and one byte of its
/// line end, and all up to the end of the second hit's data.
const TWO: [Sending; 3] = [
    (
        0,
        &[
            VALUE,
            DATA,
            Slice::Text(b"\r\nVALUE l 7 16384\r\n"),
            DATA,
            END,
        ],
    ),
    (
        17 + 16_384 + 1,
        &[Slice::Text(b"\nVALUE l 7 16384\r\n"), DATA, END],
    ),
    (18 + 16_384, &[END]),
];

/// Two replies, sent in pieces: nothing, and the first reply. The second still waits then.
const BEHIND: [Sending; 2] = [
    (
        0,
        &[
            VALUE,
            DATA,
            Slice::Text(b"\r\nEND\r\nVALUE k 7 16384 1\r\n"),
            DATA,
            END,
        ],
    ),
    (
        17 + 16_384 + 7,
        &[Slice::Text(b"VALUE k 7 16384 1\r\n"), DATA, END],
    ),
];

/// Sends waiting output in pieces, and expects the slices after each.
fn expect_sendings(rt: &impl Abort, session: &mut Session, sendings: &[Sending]) {
    for (sent, slices) in sendings {
        session.sent(*sent);
        let behind = expect_front(rt, session, slices);
        expect_number(rt, behind as u64, 0, "behind");
    }
}

/// Pushes each look-up, and answers it with this outcome.
fn ask_all(
    rt: &(impl AllocGlobal + Abort),
    session: &mut Session,
    users: &Users,
    lines: &[&str],
    outcome: &Outcome,
) -> Result<(), NoMemory> {
    for line in lines {
        ask(rt, session, users, line, outcome)?;
    }
    Ok(())
}

/// Asks twice on one connection of alice's, where each key holds 16,384 bytes, and expects the
/// slices of the replies.
fn expect_replies(
    rt: &(impl AllocGlobal + Abort),
    names: &[&str],
    lines: &[&str],
    sendings: &[Sending],
) -> Result<(), Fail> {
    let users = users(rt.alloc())?;
    let outcome = found(rt.alloc(), names, 16_384)?;
    let mut session = opened(rt.alloc(), &users)?;
    expect_twice(rt, &mut session, &users, lines, &outcome, sendings)?;
    Ok(())
}

/// Asks twice on this connection, answers with this outcome, and expects the slices of the replies.
fn expect_twice(
    rt: &(impl AllocGlobal + Abort),
    session: &mut Session,
    users: &Users,
    lines: &[&str],
    outcome: &Outcome,
    sendings: &[Sending],
) -> Result<(), NoMemory> {
    for _ in 0..2 {
        ask_all(rt, session, users, lines, outcome)?;
        expect_sendings(rt, session, sendings);
        session.sent(usize::MAX);
    }
    Ok(())
}

/// Guards memory and speed: large data must not be copied into the output. Every byte must still go
/// out once.
#[test]
fn large_data_is_sent_from_where_it_lies(rt: HostRuntime) -> Result<(), Fail> {
    expect_replies(&rt, &["k"], &["get k\r\n"], &ONE)?;
    expect_replies(&rt, &["k", "l"], &["get k l\r\n"], &TWO)?;
    expect_replies(&rt, &["k"], &["get k\r\n", "gets k\r\n"], &BEHIND)
}

/// Guards memory: a look-up of many items must not copy all their data into the output.
#[test]
fn smaller_data_is_shared_where_a_reply_is_long(rt: HostRuntime) -> Result<(), Fail> {
    let users = users(rt.alloc())?;
    let mut session = opened(rt.alloc(), &users)?;
    expect_long(&rt, &mut session, &users)
}

/// Asks for 64 hits of 16,383 bytes, and expects the first hit's data in a slice of its own.
fn expect_long(
    rt: &(impl AllocGlobal + Abort),
    session: &mut Session,
    users: &Users,
) -> Result<(), Fail> {
    let outcome = found(rt.alloc(), &["k"; 64], 16_383)?;
    ask(rt, session, users, "get k\r\n", &outcome)?;
    let first = [Slice::Text(b"VALUE k 7 16383\r\n"), Slice::Data(16_383)];
    let behind = expect_front(rt, session, &first);
    expect_number(rt, behind as u64, 63 * 16_402 + 7, "behind");
    Ok(())
}
