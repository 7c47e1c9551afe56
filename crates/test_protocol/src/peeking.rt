//! Guesses at what the next requests ask for, on lines by hand. No clause says what is guessed.

use crate::fixtures::{expect_bytes, expect_number};
use std::process::Abort;
use std::test::Fail;
use tc_feed::{Feed, Peeked};

/// Means that the guess did not see the end of the request.
const UNSEEN: u64 = u64::MAX;

/// Lines, the key that each seems to ask for, and the place of the next request in bytes from the
/// line's first.
const LINES: [(&str, &str, u64); 11] = [
    ("get a\r\nget b\r\n", "a", 7),
    ("gets key\n", "key", 9),
    ("set k 5 0 3\r\nabc\r\nget k\r\n", "k", 18),
    ("set k 5 0 3 noreply\r\nabc\r\n", "k", 26),
    ("cas k 0 0 1 7\r\nx\r\n", "k", 18),
    ("replace k 0 0 0\r\n\r\n", "k", 19),
    ("append k 0 0 12\r\nabc", "k", UNSEEN),
    ("set k 0 0 99999999999999999999\r\n", "k", UNSEEN),
    ("delete k noreply\r\n", "k", 18),
    ("incr k 12\r\n", "k", 11),
    ("touch k 1000000000000000\r\n", "k", UNSEEN),
];

/// Lines that show no key: no whole key, several keys, or a command of another form.
const NOTHING: [&str; 8] = [
    "",
    "get",
    "get\r\n",
    "get key",
    "get a b\r\n",
    "gat 10 a\r\n",
    "version\r\n",
    "flush_all 10\r\n",
];

/// Expects a guess with this key and this end.
fn expect_peeked(rt: &impl Abort, got: Option<Peeked<'_>>, key: &str, end: u64, at: &str) {
    let (found, behind) = match got {
        Some(
            Peeked {
                key,
                end: Some(end),
            },
        ) => (key, end as u64),
        Some(Peeked { key, end: None }) => (key, UNSEEN),
        None => (at.as_bytes(), 0),
    };
    expect_bytes(rt, found, key.as_bytes(), at);
    expect_number(rt, behind, end, at);
}

/// Guards speed: the memory that the next commands need is read ahead only if their keys are
/// guessed.
#[test]
fn a_line_shows_its_key_and_where_it_ends(rt: HostRuntime) -> Result<(), Fail> {
    for (line, key, end) in LINES {
        let mut feed = Feed::new(rt.alloc());
        feed.push(line.as_bytes())?;
        expect_peeked(&rt, feed.peek(0), key, end, line);
    }
    Ok(())
}

/// Guards speed: no memory is read ahead for a key that is not whole or not asked for.
#[test]
fn what_asks_for_no_key_shows_none(rt: HostRuntime) -> Result<(), Fail> {
    for line in NOTHING {
        let mut feed = Feed::new(rt.alloc());
        feed.push(line.as_bytes())?;
        assert!(&rt; feed.peek(0).is_none(), "{line}");
    }
    Ok(())
}

/// Guards speed: guesses must be about the requests that are still to come.
#[test]
fn a_guess_begins_behind_bytes_that_were_read(rt: HostRuntime) -> Result<(), Fail> {
    let mut feed = Feed::new(rt.alloc());
    feed.push(b"get a\r\nget b\r\nget c\r\n")?;
    let _ = feed.next(rt.alloc(), 16)?;
    expect_peeked(&rt, feed.peek(0), "b", 7, "the first that is unread");
    expect_peeked(&rt, feed.peek(7), "c", 7, "the one behind it");
    assert!(&rt; feed.peek(14).is_none());
    assert!(&rt; feed.peek(usize::MAX).is_none());
    Ok(())
}
